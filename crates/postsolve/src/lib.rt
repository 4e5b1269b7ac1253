// Postsolve: the way back from a pair of the reduced network to one of the network given.
#![tactic(auto)]

ghost use Rattle.std.specs.Prelude.{◌≡◌, List, length};
ghost use Rattle.step.specs.declared.Step.{Step};
ghost use Rattle.step.specs.Run.{rule_of, back_of, at, undo, way_back};
ghost use Rattle.rules.specs.Table.{rules};
ghost use Rattle.step_log.specs.Log.{Holds};
ghost use Rattle.postsolve.specs.Postsolve.{arcs_turn, arcs_back};
ghost use Rattle.postsolve.specs.internal.Turn.{back_turn, old_edit};

use fraction::Misfit;
use network::pair::Pair;
use network::{Arc, Edit};
use step::Old;

// A step undone, on the pair on its way back.
#[tactic(auto, using(fraction::proofs::Laws::misfit_is))]
fn undo_step(rule: usize, old: Old, way: Result<Pair, Misfit>) -> Result<Pair, Misfit>
    ensures { result ≡ undo ((rule_of rules rule).back old) way }
{
    let before = way?;
    let restored = rules::undo(rule, old, before)?;
    Ok(step::restore(before, restored))
}

// The old arcs of a step, to be put back.
fn old_edit(old: Old) -> Edit
    ensures { result ≡ old_edit old }
{
    Edit {
        one: old.one,
        two: old.two,
        three: old.three,
        four: old.four,
        ..network::no_edit()
    }
}

// Step k of the log undone, and its old arcs put back into the list.
#[tactic(auto, unfolding(network::specs::ArcList::replaced_all))]
fn undo_turn(
    log: &[i32],
    k: usize,
    way: Result<Pair, Misfit>,
    arcs: &mut [Arc],
) -> Result<Pair, Misfit>
    ensures { (result ≡ back_turn log.now k way) × (arcs.new ≡ arcs_turn log.now k arcs.old) }
{
    let old = step_log::old_at(log, k);
    network::list::put_edit(arcs, old_edit(old));
    undo_step(step_log::rule_at(log, k), old, way)
}

// The steps of the log undone, the last first (log and number of steps apart, as in `records::stack`).
pub fn undo_steps(log: &[i32], steps: usize, pair: Pair, arcs: &mut [Arc]) -> Result<Pair, Misfit>
    ensures { ((ss : List Step) → length ss ≡ steps → Holds log.now 0 ss → result ≡ way_back (back_of rules) ss (at pair)) × (arcs.new ≡ arcs_back log.now steps arcs.old) }
{
    let mut back = Ok(pair);
    // by number: a step is read out of the log's words
    for k in (0..steps).rev() {
        back = undo_turn(log, k, back, arcs);
    }
    back
}
