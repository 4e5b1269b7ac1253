// Restoring: the pair of a reduced network, tested there, goes back over the steps to the original network.
#![tactic(auto)]

ghost use Rattle.std.specs.Prelude.{◌≡◌, length};
ghost use Rattle.loops.specs.Loops.{zeros};
ghost use Rattle.survivors.specs.Survivors.{packed_of};
ghost use Rattle.records.specs.Network.{read_of};
ghost use Rattle.optimality.specs.Test.{pair_questions};
ghost use Rattle.rules.specs.Table.{reduced};
ghost use Rattle.search.specs.Search.{ends_of};
ghost use Rattle.records.specs.Questions.{answered};
ghost use Rattle.records.specs.Logged.{is_stack_of};
ghost use Rattle.restoration.specs.Restore.{is_reduced, offer_table, refusal_of, Written, Restoration};
ghost use Rattle.records.specs.Pair.{pair_words};
ghost use Rattle.records.specs.Values.{four_words};
ghost use Rattle.restoration.specs.internal.Parts.{Empty, offer_of, Ended};

use fraction::{Fraction, Misfit};
use network::pair::Pair;
use network::{Arc, Net};
use optimality::Examined;
use records::refusal::Refusal;
use search::Ran;

pub mod plain;

// Questions 8 to 12, on the network that is left: the pair goes to the original numbers, its value stays the reduced network's.
fn test_pair(net: Net, pair: &[i32]) -> Result<Examined, Refusal>
    ensures { result ≡ answered (pair_questions (packed_of net) pair.now) (offer_of net pair.now) }
{
    let tested = optimality::examine(survivors::pack(net), pair)?;
    Ok(Examined {
        pair: survivors::spread(net, tested.pair),
        ..tested
    })
}

// Questions 6 to 12 of a run whose steps stand in the log and that leaves the network `left`.
#[tactic(auto, unfolding(crate::specs::Restore::offer_table))]
fn ask_run(
    ran: Ran,
    left: Net,
    log: &[i32],
    stack: &[i32],
    pair: &[i32],
) -> Result<Examined, Refusal>
    ensures { result ≡ answered (offer_table (is_reduced (ends_of ran.contradiction)) (is_stack_of log.now ran.steps stack.now) (packed_of left) pair.now) (offer_of left pair.now) }
{
    Refusal::NoFlow.unless(ran.contradiction.is_none())?;
    Refusal::Stack.unless(records::stack::is_stack(log, ran.steps, stack))?;
    test_pair(left, pair)
}

// The words of a restored pair and of the two values.
fn write(
    net: Net,
    pair: Pair,
    reduced: Fraction,
    original: Fraction,
    out: &mut [i32],
    values: &mut [i32],
)
    requires { Empty out.old values.old }
    ensures { (out.new ≡ pair_words net.n net.m pair (length out.old)) × (values.new ≡ four_words reduced original (length values.old)) }
{
    records::pair::write_pair(net.n, net.m, pair, out);
    records::values::write(values, 0, reduced);
    records::values::write(values, 2, original);
}

// The end of the way back on the network given: question 13, and the words of what is restored.
fn finish(
    net: Net,
    reduced: Fraction,
    way: Result<Pair, Misfit>,
    out: &mut [i32],
    values: &mut [i32],
) -> Result<(), Refusal>
    requires { Empty out.old values.old }
    ensures { Ended net reduced way result out.new values.new (length out.old) (length values.old) }
{
    if let Ok(back) = way
        && let Ok(original) = figures::value(net, back)
    {
        write(net, back, reduced, original, out, values);
        return Ok(());
    }
    Err(Refusal::WayBack)
}

// All questions, into slices of zeros.
fn restore_in(
    network: &[i32],
    stack: &[i32],
    pair: &[i32],
    out: &mut [i32],
    values: &mut [i32],
    scratch: &mut [i32],
    arcs: &mut [Arc],
) -> Result<(), Refusal>
    requires { (out.old ≡ zeros (length out.old)) × (values.old ≡ zeros (length values.old)) }
    ensures { Written (refusal_of network.now stack.now pair.now (length out.old) (length values.old) (length scratch.old) (length arcs.old)) (read_of network.now) (reduced (read_of network.now)) pair.now result out.new values.new (length out.old) (length values.old) }
{
    Refusal::Room.unless(records::PAIR_WORDS <= out.len())?;
    Refusal::Room.unless(records::VALUE_WORDS <= values.len())?;
    let ran = search::run(network, scratch, arcs)?;
    let left = network::join(ran.nodes, network::list::view(arcs));
    let there = ask_run(ran, left, scratch, stack, pair)?;
    let way = postsolve::undo_steps(scratch, ran.steps, there.pair, arcs);
    let nodes = records::net::read_beside(network);
    let given = network::join(nodes, network::list::view(arcs));
    finish(given, there.value, way, out, values)
}

// Restores the pair of a reduced network to the network given, where `stack` has the steps of its reduction and the pair passes
// the test on the reduced network: the restored pair into `out`, the reduced value and the original's into `values`. Every other
// word of the lent slices, and every number of every record of the list, is zero afterwards, on a refusal every word of them. The
// slices are parameters of their own, as in `reduction::reduce`.
pub fn restore(
    network: &[i32],
    stack: &[i32],
    pair: &[i32],
    out: &mut [i32],
    values: &mut [i32],
    scratch: &mut [i32],
    arcs: &mut [Arc],
) -> Result<(), Refusal>
    ensures { Restoration network.now stack.now pair.now (length out.old) (length values.old) (length scratch.old) (length arcs.old) result out.new values.new scratch.new arcs.new }
{
    loops::clear(out);
    loops::clear(values);
    let r = restore_in(network, stack, pair, out, values, scratch, arcs);
    loops::clear(scratch);
    network::list::clear(arcs);
    r
}
