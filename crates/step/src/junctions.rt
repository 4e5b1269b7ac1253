// Arcs that meet at a node: what rules 6 and 8 ask of them.
ghost use Rattle.std.specs.Prelude.{◌≡◌, true};
ghost use Rattle.step.specs.Back.{flow_of, quote_of};
ghost use Rattle.step.specs.Junction.{sign_by, has_sign_at, is_free, is_apart};

use crate::FlowUpdate;
use fraction::{Fraction, Worked};
use network::pair::Pair;
use network::{Arc, ArcUpdate};

// Whether a multiplier is below 0, or above 0.
fn is_signed(e: Fraction, below: bool) -> bool
    ensures { result ≡ sign_by true below e }
{
    if below {
        e.less(Fraction::ZERO)
    } else {
        Fraction::ZERO.less(e)
    }
}

// Whether an arc touches node i with a multiplier below 0, or above 0.
#[tactic(auto, unfolding(crate::specs::Junction::has_sign_at))]
pub fn has_sign(t: Arc, i: usize, below: bool) -> bool
    ensures { result ≡ has_sign_at t i below }
{
    network::touches(t, i) && is_signed(network::side_at(t, i).e, below)
}

// Whether an arc is no root arc, with bounds 0 and none.
#[tactic(auto, unfolding(crate::specs::Junction::is_free))]
pub fn is_free(t: Arc) -> bool
    ensures { result ≡ is_free t }
{
    !network::is_root(t) && t.lower.is_zero() && t.upper.is_no_upper()
}

// Whether the other ends of two arcs at node i differ.
#[tactic(auto, unfolding(crate::specs::Junction::is_apart))]
pub fn is_apart(n: Arc, p: Arc, i: usize) -> bool
    ensures { result ≡ is_apart n p i }
{
    network::side_at(n, i).other != network::side_at(p, i).other
}

// The price that an arc gives node i.
pub fn quote(t: Arc, i: usize, pair: Pair) -> Worked
    ensures { result ≡ quote_of t i pair }
{
    let w = network::side_at(t, i);
    crate::quote(t, i, network::pair::price_at(pair, w.other))
}

// A flow for an old arc.
pub fn flow(old: ArcUpdate, x: Fraction) -> FlowUpdate
    ensures { result ≡ flow_of old x }
{
    FlowUpdate {
        arc: old.number,
        flow: x,
    }
}
