// The entry with plain parameters: it makes the list of arc records itself.
ghost use Rattle.std.specs.Prelude.{length};
ghost use Rattle.network.specs.Limits.{max_arcs};
ghost use Rattle.network.specs.ArcList.{no_arcs};
ghost use Rattle.reduction.specs.Reduce.{Reduction};

use crate::End;
use network::{Arc, MAX_ARCS};
use records::refusal::Refusal;

// Reduces a network, as `reduce` of the crate does with a list of `MAX_ARCS` records.
pub fn reduce(
    network: &[i32],
    out: &mut [i32],
    stack: &mut [i32],
    scratch: &mut [i32],
) -> Result<End, Refusal>
    ensures { Reduction network.now (length out.old) (length stack.old) (length scratch.old) max_arcs result out.new stack.new scratch.new (no_arcs max_arcs) }
{
    let z = network::no_arc();
    let mut arcs: [Arc; MAX_ARCS] = [z; MAX_ARCS];
    crate::reduce(network, out, stack, scratch, &mut arcs)
}
