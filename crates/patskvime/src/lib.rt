// The library for other languages: reducing, the test and restoring with a code as answer.
#![tactic(auto)]

ghost use Rattle.std.specs.Prelude.{◌≡◌, length};
ghost use Rattle.records.specs.Questions.{number_in};
ghost use Rattle.patskvime.specs.Codes.{end_code, EndRanged, ReductionCode, TestCode, RestorationCode};

use records::refusal::Refusal;
use reduction::End;

// An end's code.
fn code(end: End) -> usize
    requires { EndRanged end }
    ensures { result ≡ end_code end }
{
    match end {
        End::Reduced => 0,
        End::NoFlow { rule, place } => 256 * rule + place,
    }
}

// The code of an answer without values.
fn number(answer: Result<(), Refusal>) -> usize
    ensures { result ≡ number_in answer }
{
    match answer {
        Ok(()) => 0,
        Err(refusal) => refusal.number(),
    }
}

// Reduces a network: 0 where it is reduced, 256 × rule + place for no flow, the question's number for a refusal.
#[unsafe(no_mangle)]
pub extern "C" fn patskvime_reduce(
    network: &[i32],
    out: &mut [i32],
    stack: &mut [i32],
    scratch: &mut [i32],
) -> usize
    ensures { ReductionCode network.now (length out.old) (length stack.old) (length scratch.old) result out.new stack.new scratch.new }
{
    match reduction::plain::reduce(network, out, stack, scratch) {
        Ok(end) => code(end),
        Err(refusal) => refusal.number(),
    }
}

// Tests a pair on a network: 0 where it is passed, the question's number for a refusal.
#[unsafe(no_mangle)]
pub extern "C" fn patskvime_test(network: &[i32], pair: &[i32], values: &mut [i32]) -> usize
    ensures { TestCode network.now pair.now (length values.old) result values.new }
{
    let answer = optimality::test(network, pair, values);
    number(answer)
}

// Restores the pair of a reduced network: 0 where it is restored, the question's number for a refusal.
#[unsafe(no_mangle)]
pub extern "C" fn patskvime_restore(
    network: &[i32],
    stack: &[i32],
    pair: &[i32],
    out: &mut [i32],
    values: &mut [i32],
    scratch: &mut [i32],
) -> usize
    ensures { RestorationCode network.now stack.now pair.now (length out.old) (length values.old) (length scratch.old) result out.new values.new scratch.new }
{
    let restored = restoration::plain::restore(network, stack, pair, out, values, scratch);
    number(restored)
}
