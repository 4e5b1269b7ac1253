// Answers single questions, for comparison with another implementation. Words are 32 bits, signed, the lowest byte
// first. A record of 204 words comes in for each question, and its first word says which: 0 an operation on fractions
// (operation.rt), 1 a rule at a place (rule.rt), 2 the optimality test (test.rt), 3 the way back over a step (back.rt).
// 62 words go out: the answer, and zeros behind it; zeros alone where the first word is another.
#![tactic(auto)]

use std::io;
use std::io::Write;

mod back;
mod operation;
mod rule;
mod test;
mod trial;
mod words;

const ASKED_WORDS: usize = 204;

const TOLD_WORDS: usize = 62;

const ASKED_BYTES: usize = 4 * ASKED_WORDS;

const TOLD_BYTES: usize = 4 * TOLD_WORDS;

// How many records are read at once.
const RECORDS: usize = 32;

// How often records are read, at most.
const TURNS: usize = 1000000;

fn answer(asked: &[i32; ASKED_WORDS]) -> [i32; TOLD_WORDS] {
    let mut told = [0i32; TOLD_WORDS];
    match asked[0] {
        0 => operation::answer(asked, &mut told),
        1 => rule::answer(asked, &mut told),
        2 => test::answer(asked, &mut told),
        3 => back::answer(asked, &mut told),
        _ => {},
    }
    told
}

fn answer_all(input: &[u8], out: &mut [u8]) {
    let questions = input.chunks_exact(ASKED_BYTES);
    let answers = out.chunks_exact_mut(TOLD_BYTES);
    for (question, told) in questions.zip(answers) {
        words::write(answer(&words::read(question)), told);
    }
}

// Reads some records, answers them, and says whether more may come.
fn answer_some(rt: &HostRuntime) -> io::Result<bool> {
    let mut input = [0u8; RECORDS * ASKED_BYTES];
    let n = input::read_full(&mut rt.stdin(), &mut input)?;
    let mut out = [0u8; RECORDS * TOLD_BYTES];
    answer_all(&input[..n], &mut out);
    rt.stdout().write_all(&out[..n / ASKED_BYTES * TOLD_BYTES])?;
    Ok(n == RECORDS * ASKED_BYTES)
}

fn main(rt: HostRuntime) -> io::Result<()> {
    for _ in 0..TURNS {
        if !answer_some(&rt)? {
            break;
        }
    }
    Ok(())
}
