// Rule 8: three-way junctions.
#![tactic(auto, using(fraction::proofs::Laws::misfit_is), unfolding(fraction::specs::Formula::added, fraction::specs::Formula::subtracted, fraction::specs::Formula::multiplied, fraction::specs::Formula::divided, fraction::specs::Formula::negated, step::specs::Outcome::only_where, step::specs::Outcome::no_flow_where, step::specs::Outcome::fits, step::specs::Back::figure, fraction::specs::Exact::is_finite, crate::specs::ThreeWay::turned, crate::specs::ThreeWay::is_rising, crate::specs::ThreeWay::altered, crate::specs::ThreeWay::between, crate::specs::ThreeWay::joined, crate::specs::ThreeWay::sorted, crate::specs::ThreeWay::three, crate::specs::ThreeWay::three_back))]

ghost use Rattle.std.specs.Prelude.{◌≡◌, cond, not, ◌&&◌, Ok};
ghost use Rattle.fraction.specs.Formula.{◌⊕◌, ◌⊖◌, ◌⊗◌, ◌⊘◌, ⊝◌};
ghost use Rattle.step.specs.Figure.{larger, smaller};
ghost use Rattle.step.specs.Junction.{has_sign_at, is_free, is_apart};
ghost use Rattle.three_way.specs.ThreeWay.{turned as turned_of, is_rising, altered as altered_of, between as between_of, added as added_of, low_of, high_of, joined, sorted, three as three_of, restored_three, three_back};

use fraction::{Fraction, Misfit, Worked};
use network::pair::Pair;
use network::{Arc, ArcUpdate, Side, SupplyUpdate};
use step::{Change, Halt, Old, Outcome, PriceUpdate, Restored, Site, Undone, either, junctions};

// Arcs 1 and 2 at a node, and the third.
#[derive(Clone, Copy)]
struct Three {
    one: ArcUpdate,
    two: ArcUpdate,
    third: ArcUpdate,
}

// w for positive supply, its negation for negative.
fn turned(below: bool, w: Worked) -> Worked
    ensures { result ≡ turned_of below w }
{
    if below { w?.negation() } else { w }
}

// ---- conditions

// Arcs 1 and 2 have the supply's sign at node i, and the third has the other.
fn signs_suit(arcs: Three, i: usize, below: bool) -> bool
    ensures { result ≡ (has_sign_at arcs.one.arc i below && (has_sign_at arcs.two.arc i below && has_sign_at arcs.third.arc i (not below))) }
{
    junctions::has_sign(arcs.one.arc, i, below)
        && junctions::has_sign(arcs.two.arc, i, below)
        && junctions::has_sign(arcs.third.arc, i, !below)
}

// Whether an arc is no root arc, with a lower bound and no upper one.
fn is_rising(t: Arc) -> bool
    ensures { result ≡ is_rising t }
{
    !network::is_root(t) && t.lower.den != 0 && t.upper.is_no_upper()
}

fn bounds_suit(arcs: Three) -> bool
    ensures { result ≡ (is_rising arcs.one.arc && (is_rising arcs.two.arc && is_free arcs.third.arc)) }
{
    is_rising(arcs.one.arc) && is_rising(arcs.two.arc) && junctions::is_free(arcs.third.arc)
}

// The other ends are three different nodes.
fn ends_suit(arcs: Three, i: usize) -> bool
    ensures { result ≡ (is_apart arcs.one.arc arcs.two.arc i && (is_apart arcs.one.arc arcs.third.arc i && is_apart arcs.two.arc arcs.third.arc i)) }
{
    let t1 = arcs.one.arc;
    let t2 = arcs.two.arc;
    let t3 = arcs.third.arc;
    junctions::is_apart(t1, t2, i)
        && junctions::is_apart(t1, t3, i)
        && junctions::is_apart(t2, t3, i)
}

// ---- the new arcs

// Arc t, of 1 and 2, from the third one's other end.
fn altered(i: usize, t: Arc, third: Arc) -> Result<Arc, Misfit>
    ensures { result ≡ altered_of i t third }
{
    let w = network::side_at(t, i);
    let v = network::side_at(third, i);
    let a = step::share_against(v.o, w.e, v.e)?;
    let c = step::less_share(t.cost, third.cost, w.e, v.e)?;
    let b = w.o;
    Ok(Arc {
        from: v.other,
        to: w.other,
        cost: c,
        lower: Fraction::ZERO,
        upper: Fraction::NO_UPPER,
        a,
        b,
    })
}

fn added_cost(c: Fraction, e: Fraction, d: Fraction, f: Fraction) -> Worked
    ensures { result ≡ (Ok c ⊗ Ok e ⊖ Ok d ⊗ Ok f) }
{
    c.product(e)?.difference(d.product(f)?)
}

// The arc from t's other end to s's, with these bounds.
fn between(i: usize, t: Arc, s: Arc, l: Fraction, u: Fraction) -> Result<Arc, Misfit>
    ensures { result ≡ between_of i t s l u }
{
    let w = network::side_at(t, i);
    let v = network::side_at(s, i);
    let a = v.e.product(w.o)?.negation()?;
    let b = w.e.product(v.o)?;
    let c = added_cost(s.cost, w.e, t.cost, v.e)?;
    Ok(Arc {
        from: w.other,
        to: v.other,
        cost: c,
        lower: l,
        upper: u,
        a,
        b,
    })
}

// Its bounds.
fn low(below: bool, t2: Arc, w1: Side) -> Worked
    ensures { result ≡ low_of below t2 w1 }
{
    turned(below, t2.lower.quotient(w1.e))
}

fn high(below: bool, r: Fraction, t1: Arc, w1: Side, w2: Side) -> Worked
    ensures { result ≡ high_of below r t1 w1 w2 }
{
    turned(below, wide::share(r, w1.e, t1.lower, w2.e))
}

// The added arc, with these bounds.
fn added(i: usize, below: bool, t1: Arc, t2: Arc, l: Fraction, u: Fraction) -> Result<Arc, Misfit>
    ensures { result ≡ added_of i below t1 t2 l u }
{
    between(i, either(below, t2, t1), either(below, t1, t2), l, u)
}

// ---- the step

// Node i has supply r, and s is the supply at arc 1's other end: the new arcs take the numbers of the old ones, and the node goes.
fn join(constant: Fraction, i: usize, r: Fraction, s: Fraction, arcs: Three) -> Outcome
    ensures { result ≡ joined constant i r s arcs.one arcs.two arcs.third }
{
    let Three { one, two, third } = arcs;
    let below = r.less(Fraction::ZERO);
    let w = network::side_at(one.arc, i);
    let l = low(below, two.arc, w)?;
    let u = high(below, r, one.arc, w, network::side_at(two.arc, i))?;
    if u.less(l) {
        return Err(Halt::Passes);
    }
    let c = added(i, below, one.arc, two.arc, l, u)?;
    let g = step::less_share(s, r, w.o, w.e)?;
    let a = altered(i, one.arc, third.arc)?;
    let b = altered(i, two.arc, third.arc)?;
    let z = step::gained(constant, one.arc, w, r)?;
    let edit = network::Edit {
        one: ArcUpdate { arc: a, ..one },
        two: ArcUpdate { arc: b, ..two },
        three: ArcUpdate { arc: c, ..third },
        four: network::no_update(),
        left: SupplyUpdate {
            node: w.other,
            supply: g,
        },
        right: network::no_supply_update(),
        gone: i,
        constant: z,
    };
    let old = Old {
        three: third,
        ..step::old_two(i, r, one, two)
    };
    Ok(Change { edit, old })
}

// The rule at a node, where these are to be its arcs 1 and 2, and the third.
fn sort(at: Site, arcs: Three) -> Outcome
    ensures { result ≡ sorted at.entry.nodes.now.constant at.entry.nodes.now.supply at.entry.number arcs.one arcs.two arcs.third }
{
    let i = at.number;
    let r = at.supply_of(i);
    if !signs_suit(arcs, i, r.less(Fraction::ZERO)) {
        return Err(Halt::Passes);
    }
    if !bounds_suit(arcs) {
        return Err(Halt::Passes);
    }
    if !ends_suit(arcs, i) {
        return Err(Halt::Passes);
    }
    let w = network::side_at(arcs.one.arc, i);
    let s = at.supply_of(w.other);
    join(at.nodes.constant, i, r, s, arcs)
}

// Rule 8 at a node: of its three arcs the third is the one without the supply's sign.
pub fn three_way(at: Site) -> Outcome
    ensures { result ≡ three_of at.entry.nodes.now.constant at.entry.nodes.now.supply at.entry.number at.entry.degree at.entry.near.one at.entry.near.two at.entry.near.three }
{
    if at.degree != 3 {
        return Err(Halt::Passes);
    }
    let i = at.number;
    let x = at.near.one;
    let y = at.near.two;
    let z = at.near.three;
    let r = at.supply_of(i);
    if r.is_zero() {
        return Err(Halt::Passes);
    }
    let below = r.less(Fraction::ZERO);
    let (one, two, third) = if !junctions::has_sign(x.arc, i, below) {
        (y, z, x)
    } else if !junctions::has_sign(y.arc, i, below) {
        (x, z, y)
    } else {
        (x, y, z)
    };
    sort(at, Three { one, two, third })
}

// ---- the way back

// The flow of arc 1.
fn first_flow(r: Fraction, e: Fraction, y: Fraction, share: Worked) -> Worked
    ensures { result ≡ (Ok r ⊘ Ok e ⊕ Ok y ⊖ share) }
{
    r.quotient(e)?.sum(y)?.difference(share?)
}

// The flow of arc 2.
fn second_flow(y: Fraction, share: Worked) -> Worked
    ensures { result ≡ Ok y ⊕ share }
{
    y.sum(share?)
}

// The flow of the third.
fn third_flow(e: Fraction, y: Fraction, f: Fraction, z: Fraction, third: Fraction) -> Worked
    ensures { result ≡ ⊝ ((Ok e ⊗ Ok y ⊕ Ok f ⊗ Ok z) ⊘ Ok third) }
{
    e.product(y)?
        .sum(f.product(z)?)?
        .quotient(third)?
        .negation()
}

// The node's price: the smaller for positive supply, the larger for negative.
fn node_price(below: bool, p: Fraction, q: Fraction) -> Fraction
    ensures { result ≡ cond below (larger p q) (smaller p q) }
{
    if below {
        step::larger(p, q)
    } else {
        step::smaller(p, q)
    }
}

// Three flows and a price, numbers and figures one by one, as the definition has them.
fn restored_three(
    one: ArcUpdate,
    x: Fraction,
    two: ArcUpdate,
    y: Fraction,
    three: ArcUpdate,
    z: Fraction,
    i: usize,
    p: Fraction,
) -> Restored
    ensures { result ≡ restored_three one x two y three z i p }
{
    Restored {
        one: junctions::flow(three, z),
        two: junctions::flow(two, y),
        three: junctions::flow(one, x),
        four: step::no_flow(),
        price: PriceUpdate { node: i, price: p },
    }
}

// Its way back.
pub fn three_back(old: Old, pair: Pair) -> Undone
    ensures { result ≡ three_back old pair }
{
    let i = old.node;
    let r = old.supply;
    let one = old.one;
    let two = old.two;
    let three = old.three;
    let below = r.less(Fraction::ZERO);
    let w1 = network::side_at(one.arc, i);
    let w2 = network::side_at(two.arc, i);
    let w3 = network::side_at(three.arc, i);
    let y1 = network::pair::flow_at(pair, one.number);
    let y2 = network::pair::flow_at(pair, two.number);
    let y3 = network::pair::flow_at(pair, three.number);
    let x = first_flow(r, w1.e, y1, turned(below, w2.e.product(y3)))?;
    let y = second_flow(y2, turned(below, w1.e.product(y3)))?;
    let z = third_flow(w1.e, y1, w2.e, y2, w3.e)?;
    let p = junctions::quote(one.arc, i, pair)?;
    let q = junctions::quote(two.arc, i, pair)?;
    let price = node_price(below, p, q);
    Ok(restored_three(one, x, two, y, three, z, i, price))
}
