// Reducing a network: the entry.
#![tactic(auto)]

ghost use Rattle.std.specs.Prelude.{◌≡◌, length};
ghost use Rattle.loops.specs.Loops.{zeros};
ghost use Rattle.records.specs.Network.{read_of};
ghost use Rattle.rules.specs.Table.{reduced};
ghost use Rattle.search.specs.Search.{ends_of};
ghost use Rattle.records.specs.Logged.{with_stack};
ghost use Rattle.reduction.specs.Reduce.{refusal_of, end_of, end_output, Written, Reduction};

use network::{Arc, Net};
use records::refusal::Refusal;
use search::{Contradiction, Ran};

pub mod plain;

// A reduced network; or no flow, with the rule and the place that show it. Both are ends of the paper, and neither is the lack of
// the other, as an `Option` would have it. Rule and place are numbers, as in `step::Step`.
#[derive(Clone, Copy, Debug, PartialEq, Eq)]
pub enum End {
    Reduced,
    NoFlow { rule: usize, place: usize },
}

// The end of a run whose steps stand in the log and that leaves the network `left`, into slices of zeros.
fn finish(ran: Ran, left: Net, log: &[i32], out: &mut [i32], stack: &mut [i32]) -> End
    requires { out.old ≡ zeros (length out.old) }
    ensures { (result ≡ end_of (ends_of ran.contradiction)) × (out.new ≡ end_output (ends_of ran.contradiction) left (length out.old)) × (stack.new ≡ with_stack log.now ran.steps stack.old) }
{
    records::stack::write(log, ran.steps, stack);
    match ran.contradiction {
        Some(Contradiction { rule, place }) => End::NoFlow { rule, place },
        None => {
            records::net::write_network(survivors::pack(left), out);
            End::Reduced
        },
    }
}

// The questions, the run, and its words into slices of zeros.
fn reduce_in(
    network: &[i32],
    out: &mut [i32],
    stack: &mut [i32],
    scratch: &mut [i32],
    arcs: &mut [Arc],
) -> Result<End, Refusal>
    requires { (out.old ≡ zeros (length out.old)) × (stack.old ≡ zeros (length stack.old)) }
    ensures { Written (refusal_of network.now (length out.old) (length stack.old) (length scratch.old) (length arcs.old)) (reduced (read_of network.now)) result out.new stack.new (length out.old) (length stack.old) }
{
    Refusal::Room.unless(records::NETWORK_WORDS <= out.len())?;
    Refusal::Room.unless(records::STACK_WORDS <= stack.len())?;
    let ran = search::run(network, scratch, arcs)?;
    let left = network::join(ran.nodes, network::list::view(arcs));
    Ok(finish(ran, left, scratch, out, stack))
}

// Reduces a network until no rule applies: the reduced network into `out`, the steps into `stack`. Every other word of the
// lent slices, and every number of every record of the list, is zero afterwards, on a refusal every word of them. The slices,
// scratch and list among them, are parameters of their own, as the paper lends them and, but for the list, the C interface.
pub fn reduce(
    network: &[i32],
    out: &mut [i32],
    stack: &mut [i32],
    scratch: &mut [i32],
    arcs: &mut [Arc],
) -> Result<End, Refusal>
    ensures { Reduction network.now (length out.old) (length stack.old) (length scratch.old) (length arcs.old) result out.new stack.new scratch.new arcs.new }
{
    loops::clear(out);
    loops::clear(stack);
    let r = reduce_in(network, out, stack, scratch, arcs);
    loops::clear(scratch);
    network::list::clear(arcs);
    r
}
