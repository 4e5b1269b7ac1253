// What can be told of two arcs without a division: whether one is a multiple of the other.
ghost use Rattle.std.specs.Prelude.{◌≡◌};
ghost use Rattle.parallel_arcs.specs.internal.Multiple.{is_cross, is_multiple};

use fraction::Fraction;
use network::Arc;

// Whether y ÷ b is x ÷ a: crosswise, x × b and y × a are the same.
fn is_cross(x: Fraction, a: Fraction, y: Fraction, b: Fraction) -> bool
    ensures { result ≡ is_cross x a y b }
{
    integer::cross_both(integer::product(x.num, b.num), y.den, a.den)
        == integer::cross_both(integer::product(y.num, a.num), x.den, b.den)
}

// Whether b and c of arc k, tk, are as many times those of arc j, tj, as its a is.
#[tactic(auto, unfolding(crate::specs::internal::Multiple::is_multiple))]
pub fn is_multiple(tj: Arc, tk: Arc) -> bool
    ensures { result ≡ is_multiple tj tk }
{
    is_cross(tj.cost, tj.a, tk.cost, tk.a) && is_cross(tj.b, tj.a, tk.b, tk.a)
}
