// The entry with plain parameters: it makes the list of arc records itself.
ghost use Rattle.std.specs.Prelude.{length};
ghost use Rattle.network.specs.Limits.{max_arcs};
ghost use Rattle.network.specs.ArcList.{no_arcs};
ghost use Rattle.restoration.specs.Restore.{Restoration};

use network::{Arc, MAX_ARCS};
use records::refusal::Refusal;

// Restores a pair, as `restore` of the crate does with a list of `MAX_ARCS` records.
pub fn restore(
    network: &[i32],
    stack: &[i32],
    pair: &[i32],
    out: &mut [i32],
    values: &mut [i32],
    scratch: &mut [i32],
) -> Result<(), Refusal>
    ensures { Restoration network.now stack.now pair.now (length out.old) (length values.old) (length scratch.old) max_arcs result out.new values.new scratch.new (no_arcs max_arcs) }
{
    let z = network::no_arc();
    let mut arcs: [Arc; MAX_ARCS] = [z; MAX_ARCS];
    crate::restore(network, stack, pair, out, values, scratch, &mut arcs)
}
