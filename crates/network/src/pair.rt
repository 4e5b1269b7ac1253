// A pair of prices and flows, at the numbers of nodes and arcs, and its record: question 8.
ghost use Rattle.std.specs.Prelude.{◌≡◌};
ghost use Rattle.network.specs.Pair.{no_pair, price_at, flow_at};

use crate::{ARC_PLACES, NODE_PLACES};
use fraction::Fraction;

#[derive(Clone, Copy)]
pub struct Pair {
    pub price: [Fraction; NODE_PLACES],
    pub flow: [Fraction; ARC_PLACES],
}

// No price and no flow yet.
pub fn no_pair() -> Pair
    ensures { result ≡ no_pair }
{
    Pair {
        price: [crate::no_figure(); NODE_PLACES],
        flow: [crate::no_figure(); ARC_PLACES],
    }
}

// The price of node i.
pub fn price_at(pair: Pair, i: usize) -> Fraction
    ensures { result ≡ price_at pair i }
{
    crate::figure_at(&pair.price, i)
}

// The flow of arc j.
pub fn flow_at(pair: Pair, j: usize) -> Fraction
    ensures { result ≡ flow_at pair j }
{
    crate::figure_at(&pair.flow, j)
}
