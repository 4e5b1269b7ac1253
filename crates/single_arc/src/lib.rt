// Rule 3: single arc.
#![tactic(auto, using(fraction::proofs::Laws::misfit_is), unfolding(fraction::specs::Formula::added, fraction::specs::Formula::subtracted, fraction::specs::Formula::multiplied, fraction::specs::Formula::divided, fraction::specs::Formula::negated, step::specs::Outcome::only_where, step::specs::Outcome::no_flow_where, step::specs::Outcome::fits, step::specs::Back::figure, crate::specs::SingleArc::forced_out, crate::specs::SingleArc::single, crate::specs::SingleArc::single_back))]

ghost use Rattle.std.specs.Prelude.{◌≡◌, Ok};
ghost use Rattle.fraction.specs.Formula.{◌⊘◌};
ghost use Rattle.single_arc.specs.SingleArc.{forced_out, single, single_back};

use fraction::{Fraction, Worked};
use network::pair::Pair;
use network::{ArcUpdate, Side, SupplyUpdate};
use step::{Change, Halt, Old, Outcome, Site, Undone};

// The flow r ÷ e.
fn forced(r: Fraction, w: Side) -> Worked
    ensures { result ≡ (Ok r ⊘ Ok w.e) }
{
    r.quotient(w.e)
}

// An arc alone touches node i of supply r, with w its side there; s is the supply at its other end.
fn force(constant: Fraction, i: usize, at: ArcUpdate, w: Side, r: Fraction, s: Fraction) -> Outcome
    ensures { result ≡ forced_out constant i at.number at.arc w r s }
{
    let t = at.arc;
    let v = forced(r, w)?;
    if v.less(t.lower) {
        return Err(Halt::NoFlow);
    }
    if t.upper.less(v) {
        return Err(Halt::NoFlow);
    }
    let x = step::supply_less(w.other, s, w.o, v)?;
    let k = step::cost_added(constant, t.cost, v)?;
    let left = SupplyUpdate {
        node: w.other,
        supply: x,
    };
    let edit = step::dropping(at.number, left, network::no_supply_update(), i, k);
    let old = step::old_one(i, r, at);
    Ok(Change { edit, old })
}

// Rule 3 at a node.
pub fn single_arc(at: Site) -> Outcome
    ensures { result ≡ single at.entry.nodes.now.constant at.entry.nodes.now.supply at.entry.number at.entry.degree at.entry.near.one }
{
    if at.degree != 1 {
        return Err(Halt::Passes);
    }
    let i = at.number;
    let u = at.near.one;
    let w = network::side_at(u.arc, i);
    let r = at.supply_of(i);
    let s = at.supply_of(w.other);
    force(at.nodes.constant, i, u, w, r, s)
}

// Its way back.
pub fn single_back(old: Old, pair: Pair) -> Undone
    ensures { result ≡ single_back old pair }
{
    let i = old.node;
    let one = old.one;
    let t = one.arc;
    let w = network::side_at(t, i);
    let v = forced(old.supply, w)?;
    let q = network::pair::price_at(pair, w.other);
    let p = step::quote(t, i, q)?;
    Ok(step::flow_and_price(one.number, v, i, p))
}
