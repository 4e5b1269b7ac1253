// Rule 2: bare node.
#![tactic(auto, using(fraction::proofs::Laws::misfit_is), unfolding(step::specs::Outcome::only_where, step::specs::Outcome::no_flow_where, step::specs::Outcome::fits, crate::specs::BareNode::bare, crate::specs::BareNode::bare_back))]

ghost use Rattle.std.specs.Prelude.{◌≡◌};
ghost use Rattle.network.specs.declared.pair.Pair.{Pair};
ghost use Rattle.bare_node.specs.BareNode.{bare, bare_back};

use fraction::Fraction;
use step::{Change, Halt, Old, Outcome, Undone};

// Rule 2 at node i of this degree and supply r.
pub fn bare_node(constant: Fraction, i: usize, degree: usize, r: Fraction) -> Outcome
    ensures { result ≡ bare constant i degree r }
{
    if degree != 0 {
        return Err(Halt::Passes);
    }
    if !r.is_zero() {
        return Err(Halt::NoFlow);
    }
    let edit = network::edit_one(
        network::no_update(),
        network::no_supply_update(),
        network::no_supply_update(),
        i,
        constant,
    );
    let old = step::old_one(i, network::no_figure(), network::no_update());
    Ok(Change { edit, old })
}

// Its way back.
pub fn bare_back(old: Old) -> Undone
    ensures { (pair : Pair) → result ≡ bare_back old pair }
{
    Ok(step::price_only(old.node, Fraction::ZERO))
}
