// The optimality test (01, "The optimality test"): a pair of prices and flows is passed exactly when it proves itself optimal.
#![tactic(auto)]

ghost use Rattle.std.specs.Prelude.{◌≡◌, length};
ghost use Rattle.records.specs.Questions.{answered};
ghost use Rattle.optimality.specs.Test.{pair_questions, examined, Tested};

use fraction::Fraction;
use network::Net;
use network::pair::Pair;
use records::refusal::Refusal;

// A pair that answers the questions 8 to 12 by yes, and its value.
#[derive(Clone, Copy)]
pub struct Examined {
    pub pair: Pair,
    pub value: Fraction,
}

// Questions 8 to 12 of a pair's words, on a network.
#[tactic(auto, unfolding(crate::specs::Test::pair_questions))]
pub fn examine(net: Net, pair: &[i32]) -> Result<Examined, Refusal>
    ensures { result ≡ answered (pair_questions net pair.now) (examined net pair.now) }
{
    Refusal::Pair.unless(records::pair::is_pair(pair, net.n, net.m))?;
    let read = records::pair::read_pair(pair, net.n, net.m);
    let judged = figures::verdict(net, read);
    judged.asked?;
    Ok(Examined {
        pair: read,
        value: judged.value,
    })
}

// Tests a pair on a network: where it is passed its value goes into `values`. Every other word there is zero afterwards, on a refusal every word.
pub fn test(network: &[i32], pair: &[i32], values: &mut [i32]) -> Result<(), Refusal>
    ensures { Tested network.now pair.now (length values.old) result values.new }
{
    loops::clear(values);
    Refusal::Room.unless(2 <= values.len())?;
    records::net::ask(network)?;
    let there = examine(records::net::read(network), pair)?;
    records::values::write(values, 0, there.value);
    Ok(())
}
