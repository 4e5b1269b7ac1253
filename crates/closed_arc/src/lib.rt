// Rule 1: closed arc.
#![tactic(auto, using(fraction::proofs::Laws::misfit_is), unfolding(step::specs::Outcome::only_where, step::specs::Outcome::no_flow_where, step::specs::Outcome::fits, fraction::specs::Exact::is_same, crate::specs::ClosedArc::closed))]

ghost use Rattle.std.specs.Prelude.{◌≡◌};
ghost use Rattle.closed_arc.specs.ClosedArc.{closed};

use fraction::Fraction;
use network::ArcUpdate;
use step::{Halt, Outcome};

// Rule 1 at an arc; left and right are the supplies of its ends.
pub fn closed_arc(constant: Fraction, at: ArcUpdate, left: Fraction, right: Fraction) -> Outcome
    ensures { result ≡ closed constant at.number at.arc left right }
{
    let t = at.arc;
    if t.from == 0 {
        return Err(Halt::Passes);
    }
    if t.upper.less(t.lower) {
        return Err(Halt::NoFlow);
    }
    if t.lower != t.upper {
        return Err(Halt::Passes);
    }
    step::drop_arc(constant, at, t.lower, left, right)
}
