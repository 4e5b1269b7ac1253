// The restoring program: the text of a network, its stack and a pair comes in, the answer's lines go out.
#![tactic(auto)]

ghost use Rattle.std.specs.Prelude.{Some};
ghost use Rattle.answers.specs.Restoring.{restore_text};

use answers::program::Answering;
use std::io;

struct Restore;

impl Answering for Restore {
    ghost answer_of = { λ text. Some (restore_text text) };

    fn write_answer(text: &[u8], out: &mut [u8]) -> usize {
        answers::restoring::restore_text(text, out)
    }
}

fn main(rt: HostRuntime) -> io::Result<()> {
    answers::program::run::<Restore, _, _>(&mut rt.stdin(), &mut rt.stdout())
}
