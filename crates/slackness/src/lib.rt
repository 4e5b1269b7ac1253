// The price rule of one arc (01, "The optimality test"): complementary slackness.
#![tactic(auto)]

ghost use Rattle.std.specs.Prelude.{◌≡◌};
ghost use Rattle.slackness.specs.Slackness.{is_at, keeps_rule};

use fraction::Fraction;

// Whether a bound is finite and the flow is at it.
#[tactic(auto, unfolding(crate::specs::Slackness::is_at, fraction::specs::Exact::is_finite, fraction::specs::Exact::is_same))]
fn is_at(bound: Fraction, x: Fraction) -> bool
    ensures { result ≡ is_at bound x }
{
    if bound.den == 0 {
        return false;
    }
    x == bound
}

// The price rule, for a flow x and a reduced cost d.
#[tactic(auto, unfolding(crate::specs::Slackness::keeps_rule))]
pub fn keeps_rule(l: Fraction, u: Fraction, x: Fraction, d: Fraction) -> bool
    ensures { result ≡ keeps_rule l u x d }
{
    if Fraction::ZERO.less(d) {
        return is_at(l, x);
    }
    if d.less(Fraction::ZERO) {
        return is_at(u, x);
    }
    true
}
