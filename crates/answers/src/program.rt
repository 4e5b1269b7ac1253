// What the programs share: a text comes in, the answer's bytes go out.
ghost use Rattle.std.specs.Prelude.{◌≡◌, ℕ, List, ◌+◌, ◌≤◌, length, take, None, IfSome, OnOk};
ghost use Rattle.std.specs.declared.option.Option.{Option};
ghost use Rattle.std.specs.Io.KnownBytes.{Appends};
ghost use Rattle.text.specs.Text.{max_bytes};
ghost use Rattle.answers.specs.Answers.{answer_room};

use std::io;
use std::io::{Read, Write};

// No answer has more bytes.
const ANSWER_BYTES: usize = 65536;

// A program, by how it answers a text: over the first bytes of a slice, which are so many.
pub trait Program {
    fn answer(text: &[u8], out: &mut [u8]) -> usize
        ensures within { result ≤ length out.new };
}

// A program that also says what it answers.
pub trait Answering {
    // The bytes of a text's answer, where they are known.
    ghost answer_of: { List ℕ → Option (List ℕ) } = { λ _. None };

    fn write_answer(text: &[u8], out: &mut [u8]) -> usize
        ensures within { result ≤ length out.new }
        ensures bytes { answer_room ≤ length out.old → IfSome (answer_of text.now) (λ bytes. take result out.new ≡ bytes) };
}

// A program that does not say it.
impl<P: Program> Answering for P {
    fn write_answer(text: &[u8], out: &mut [u8]) -> usize {
        P::answer(text, out)
    }
}

// Runs a program: what comes in is a text, whose answer is written. One byte more than a text may have is read, so that a longer one
// is seen.
pub fn run<P: Answering, R: Read, W: Write>(reader: &mut R, writer: &mut W) -> io::Result<()>
    ensures { OnOk result (IfSome (R.remaining reader.old) (λ text. IfSome (P.answer_of (take (max_bytes + 1) text)) (λ bytes. Appends (W.contents writer.old) (W.contents writer.new) bytes))) }
{
    let mut input = [0u8; text::MAX_BYTES + 1];
    let n = input::read_full(reader, &mut input)?;
    let mut out = [0u8; ANSWER_BYTES];
    let end = P::write_answer(&input[..n], &mut out);
    writer.write_all(&out[..end])
}

#[cfg(test)]
mod tests {
    use super::*;
    use std::test::Fail;

    // A program that gives back what it reads, and says no more of it than that it lies in the slice.
    struct Echo;

    impl Program for Echo {
        fn answer(text: &[u8], out: &mut [u8]) -> usize {
            let n = text.len().min(out.len());
            out[..n].copy_from_slice(&text[..n]);
            n
        }
    }

    #[test]
    fn runs_a_program_of_one_clause(rt: HostRuntime) -> Result<(), Fail> {
        let mut reader: &[u8] = b"1 2 3\n";
        let mut written = [0u8; 8];
        let mut writer: &mut [u8] = &mut written;
        run::<Echo, _, _>(&mut reader, &mut writer)?;
        assert_eq!(rt; written, *b"1 2 3\n\0\0");
        Ok(())
    }
}
