// The reducing program: a network's text comes in, the answer's lines go out.
#![tactic(auto)]

ghost use Rattle.std.specs.Prelude.{Some};
ghost use Rattle.answers.specs.Answers.{reduce_text};

use answers::program::Answering;
use std::io;

struct Reduce;

impl Answering for Reduce {
    ghost answer_of = { λ text. Some (reduce_text text) };

    fn write_answer(text: &[u8], out: &mut [u8]) -> usize {
        answers::reduce_text(text, out)
    }
}

fn main(rt: HostRuntime) -> io::Result<()> {
    answers::program::run::<Reduce, _, _>(&mut rt.stdin(), &mut rt.stdout())
}
