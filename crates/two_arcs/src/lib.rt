// Rule 5: two arcs.
#![tactic(auto, using(fraction::proofs::Laws::misfit_is), unfolding(fraction::specs::Formula::added, fraction::specs::Formula::subtracted, fraction::specs::Formula::multiplied, fraction::specs::Formula::divided, fraction::specs::Formula::negated, step::specs::Outcome::only_where, step::specs::Outcome::no_flow_where, step::specs::Outcome::fits, step::specs::Back::figure, fraction::specs::Exact::is_finite, crate::specs::TwoArcs::same_sign, crate::specs::TwoArcs::image_of, crate::specs::TwoArcs::tighter, crate::specs::TwoArcs::merged, crate::specs::TwoArcs::kept, crate::specs::TwoArcs::two, crate::specs::TwoArcs::two_back))]

ghost use Rattle.std.specs.Prelude.{◌≡◌, cond, eqb, Ok};
ghost use Rattle.fraction.specs.Exact.{zero_fraction, no_figure};
ghost use Rattle.fraction.specs.Formula.{◌⊖◌, ◌⊗◌, ◌⊘◌, ⊝◌};
ghost use Rattle.slackness.specs.Slackness.{keeps_rule};
ghost use Rattle.step.specs.Back.{quote_at};
ghost use Rattle.fraction.specs.declared.Fraction.{Fraction};
ghost use Rattle.two_arcs.specs.TwoArcs.{same_sign, tighter, image_of, new_arc, merging as merging_of, merged, kept, two, two_back};

use fraction::{Fraction, Worked};
use network::pair::Pair;
use network::{Arc, ArcUpdate, Side, SupplyUpdate};
use step::{Change, Halt, Old, Outcome, Site, Undone, either};

fn same_sign(x: Fraction, y: Fraction) -> bool
    ensures { result ≡ same_sign x y }
{
    if Fraction::ZERO.less(x) {
        return Fraction::ZERO.less(y);
    }
    !Fraction::ZERO.less(y)
}

// The bound of j that a bound z of k gives; the flow of j that a flow z of k leaves.
fn image(r: Fraction, wj: Side, wk: Side, z: Fraction) -> Worked
    ensures { result ≡ image_of r wj wk z }
{
    r.difference(wk.e.product(z)?)?.quotient(wj.e)
}

// The bound of j on a side where k's is z: its own, or the chosen one of it and the image of a finite z.
fn tighter<F: FnOnce(Fraction, Fraction) -> Fraction>(
    choose: F,
    own: Fraction,
    z: Fraction,
    image: Worked,
) -> Worked
    requires { F.IsAlwaysCallable choose }
    ensures { (f : Fraction → Fraction → Fraction) → ((x y r : Fraction) → F.post choose x y r → r ≡ f x y) → result ≡ tighter f own z image }
{
    if z.den == 0 {
        return Ok(own);
    }
    Ok(choose(own, image?))
}

// The multiplier of j at k's other end; zero where k is a root arc.
fn far_multiplier(wj: Side, wk: Side) -> Worked
    ensures { result ≡ cond (eqb wk.other 0) (Ok zero_fraction) (⊝ (Ok wk.o ⊗ Ok wj.e ⊘ Ok wk.e)) }
{
    if wk.other == 0 {
        return Ok(Fraction::ZERO);
    }
    step::share_against(wk.o, wj.e, wk.e)
}

// The supply at k's other end, s before the step; none where k is a root arc.
fn far_supply(wk: Side, s: Fraction, r: Fraction) -> Worked
    ensures { result ≡ cond (eqb wk.other 0) (Ok no_figure) (Ok s ⊖ Ok wk.o ⊗ Ok r ⊘ Ok wk.e) }
{
    if wk.other == 0 {
        return Ok(network::no_figure());
    }
    step::less_share(s, wk.o, r, wk.e)
}

// Arc j as it is kept: it runs on to k's other end, and becomes a root arc where k is one.
fn new_arc(wj: Side, wk: Side, c: Fraction, l: Fraction, u: Fraction, b: Fraction) -> Arc
    ensures { result ≡ new_arc wj wk c l u b }
{
    let to = if wk.other == 0 { wj.other } else { wk.other };
    Arc {
        from: wj.other,
        to,
        cost: c,
        lower: l,
        upper: u,
        a: wj.o,
        b,
    }
}

// One arc is put and arc k dropped, a supply is set, a node is dropped, and the constant is set.
fn merging(
    one: ArcUpdate,
    k: usize,
    left: SupplyUpdate,
    gone: usize,
    constant: Fraction,
) -> network::Edit
    ensures { result ≡ merging_of one.number one.arc k left.node left.supply gone constant }
{
    let two = step::numbered(k, network::no_arc());
    network::edit_two(one, two, left, network::no_supply_update(), gone, constant)
}

// Arc j is kept and arc k goes, at node i of supply r; s is the supply at k's other end.
fn merge(
    constant: Fraction,
    i: usize,
    j: ArcUpdate,
    wj: Side,
    k: ArcUpdate,
    wk: Side,
    r: Fraction,
    s: Fraction,
) -> Outcome
    ensures { result ≡ merged constant i j.number j.arc wj k.number k.arc wk r s }
{
    let tj = j.arc;
    let tk = k.arc;
    let exchanged = same_sign(wj.e, wk.e);
    let lz = either(exchanged, tk.upper, tk.lower);
    let uz = either(exchanged, tk.lower, tk.upper);
    let c = step::less_share(tj.cost, tk.cost, wj.e, wk.e)?;
    let l = tighter(step::larger, tj.lower, lz, image(r, wj, wk, lz))?;
    let u = tighter(step::smaller, tj.upper, uz, image(r, wj, wk, uz))?;
    let b = far_multiplier(wj, wk)?;
    let g = far_supply(wk, s, r)?;
    let z = step::gained(constant, tk, wk, r)?;
    let new = step::numbered(j.number, new_arc(wj, wk, c, l, u, b));
    let left = SupplyUpdate {
        node: wk.other,
        supply: g,
    };
    let edit = merging(new, k.number, left, i, z);
    let old = step::old_two(i, r, j, k);
    Ok(Change { edit, old })
}

// Arc j is kept and arc k goes, where their other ends differ.
fn keep(at: Site, j: ArcUpdate, k: ArcUpdate) -> Outcome
    ensures { result ≡ kept at.entry.nodes.now.constant at.entry.nodes.now.supply at.entry.number j k }
{
    let i = at.number;
    let wj = network::side_at(j.arc, i);
    let wk = network::side_at(k.arc, i);
    if wj.other == wk.other {
        return Err(Halt::Passes);
    }
    let r = at.supply_of(i);
    let s = at.supply_of(wk.other);
    merge(at.nodes.constant, i, j, wj, k, wk, r, s)
}

// Rule 5 at a node: of its two arcs the lower number is kept unless it is a root arc.
pub fn two_arcs(at: Site) -> Outcome
    ensures { result ≡ two at.entry.nodes.now.constant at.entry.nodes.now.supply at.entry.number at.entry.degree at.entry.near.one at.entry.near.two }
{
    if at.degree != 2 {
        return Err(Halt::Passes);
    }
    let t = at.near.one;
    let u = at.near.two;
    if network::is_root(t.arc) {
        return keep(at, u, t);
    }
    keep(at, t, u)
}

// Its way back.
pub fn two_back(old: Old, pair: Pair) -> Undone
    ensures { result ≡ two_back old pair }
{
    let i = old.node;
    let one = old.one;
    let two = old.two;
    let tj = one.arc;
    let tk = two.arc;
    let wj = network::side_at(tj, i);
    let wk = network::side_at(tk, i);
    let x = network::pair::flow_at(pair, one.number);
    let p = network::pair::price_at(pair, wj.other);
    let q = network::pair::price_at(pair, wk.other);
    let y = image(old.supply, wk, wj, x)?;
    let first = step::quote(tk, i, q)?;
    let d = old_cost(tj.cost, wj, p, first)?;
    let price = price_of(tj, i, p, x, first, d)?;
    Ok(step::flow_and_price(two.number, y, i, price))
}

// The old reduced cost of j, with the first price.
fn old_cost(c: Fraction, w: Side, p: Fraction, first: Fraction) -> Worked
    ensures { result ≡ (Ok c ⊖ Ok w.o ⊗ Ok p ⊖ Ok w.e ⊗ Ok first) }
{
    c.difference(w.o.product(p)?)?
        .difference(w.e.product(first)?)
}

// The node's price: the first one, where j then keeps the price rule.
fn price_of(t: Arc, i: usize, p: Fraction, x: Fraction, first: Fraction, d: Fraction) -> Worked
    ensures { result ≡ cond (keeps_rule t.lower t.upper x d) (Ok first) (quote_at t i p) }
{
    if slackness::keeps_rule(t.lower, t.upper, x, d) {
        return Ok(first);
    }
    step::quote(t, i, p)
}
