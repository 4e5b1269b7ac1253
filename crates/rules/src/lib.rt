// The table of the rules, in code: the step and the way back of each, by its number.
#![tactic(auto, unfolding(step::specs::Run::rule_from))]

ghost use Rattle.std.specs.Prelude.{◌≡◌};
ghost use Rattle.step.specs.Run.{rule_of};
ghost use Rattle.rules.specs.Table.{rules};

use fraction::Misfit;
use network::pair::Pair;
use step::{Old, Undone};

pub mod tried;

// What the way back over a step of a rule restores. The choice is a match on the rule's number: the ways back take
// different arguments (what is old; that and the pair; that and a flow), so that a table would hold a wrapper for each.
pub fn undo(rule: usize, old: Old, pair: Pair) -> Undone
    ensures { result ≡ (rule_of rules rule).back old pair }
{
    match rule {
        1 => step::lower_back(old),
        2 => bare_node::bare_back(old),
        3 => single_arc::single_back(old, pair),
        4 => step::lower_back(old),
        5 => two_arcs::two_back(old, pair),
        6 => crossing::crossing_back(old, pair),
        7 => parallel_arcs::parallel_back(old, network::pair::flow_at(pair, old.one.number)),
        _ => Err(Misfit),
    }
}
