// Rule 6: crossing.
#![tactic(auto, using(fraction::proofs::Laws::misfit_is), unfolding(fraction::specs::Formula::added, fraction::specs::Formula::subtracted, fraction::specs::Formula::multiplied, fraction::specs::Formula::divided, fraction::specs::Formula::negated, step::specs::Outcome::only_where, step::specs::Outcome::no_flow_where, step::specs::Outcome::fits, step::specs::Back::figure, crate::specs::Crossing::crossed, crate::specs::Crossing::crossed_at, crate::specs::Crossing::crossing_back, crate::specs::Tried::signed_in, crate::specs::Tried::signed_of, crate::specs::Tried::crossing_by))]

ghost use Rattle.std.specs.Prelude.{◌≡◌, ◌&&◌, Ok};
ghost use Rattle.fraction.specs.Formula.{◌⊕◌, ◌⊘◌, ⊝◌};
ghost use Rattle.crossing.specs.Crossing.{crossed as crossed_of, edit_four, crossed_at, share_of, price_of, crossing_back};
ghost use Rattle.crossing.specs.Tried.{signed_in, signed_of, crossing_by};
ghost use Rattle.step.specs.Junction.{is_free, is_apart};

use fraction::{Fraction, Misfit, Worked};
use network::pair::Pair;
use network::{Arc, ArcUpdate, Side};
use step::{Around, Change, Halt, Numbers, Old, Outcome, PriceUpdate, Restored, Undone, junctions};

// Of the arcs at a node, the first two of a sign; number 0 where there is none (as in `network::ArcUpdate`).
#[derive(Clone, Copy)]
struct Signed {
    first: ArcUpdate,
    second: ArcUpdate,
}

// The N and the P at a node, each two upward.
#[derive(Clone, Copy)]
struct Four {
    n1: ArcUpdate,
    n2: ArcUpdate,
    p1: ArcUpdate,
    p2: ArcUpdate,
}

// ---- conditions

fn all_free(arcs: Four) -> bool
    ensures { result ≡ (is_free arcs.n1.arc && (is_free arcs.n2.arc && (is_free arcs.p1.arc && is_free arcs.p2.arc))) }
{
    junctions::is_free(arcs.n1.arc)
        && junctions::is_free(arcs.n2.arc)
        && junctions::is_free(arcs.p1.arc)
        && junctions::is_free(arcs.p2.arc)
}

// Whether no N shares its other end with a P.
fn all_apart(arcs: Four, i: usize) -> bool
    ensures { result ≡ (is_apart arcs.n1.arc arcs.p1.arc i && (is_apart arcs.n1.arc arcs.p2.arc i && (is_apart arcs.n2.arc arcs.p1.arc i && is_apart arcs.n2.arc arcs.p2.arc i))) }
{
    let n1 = arcs.n1.arc;
    let n2 = arcs.n2.arc;
    let p1 = arcs.p1.arc;
    let p2 = arcs.p2.arc;
    junctions::is_apart(n1, p1, i)
        && junctions::is_apart(n1, p2, i)
        && junctions::is_apart(n2, p1, i)
        && junctions::is_apart(n2, p2, i)
}

// ---- the step

// -(cN ÷ eN) + cP ÷ eP.
fn cost(n: Arc, w: Side, p: Arc, v: Side) -> Worked
    ensures { result ≡ ⊝ (Ok n.cost ⊘ Ok w.e) ⊕ Ok p.cost ⊘ Ok v.e }
{
    n.cost.quotient(w.e)?.negation()?.sum(p.cost.quotient(v.e)?)
}

// The new arc of an N and a P at node i.
fn crossed(i: usize, n: Arc, p: Arc) -> Result<Arc, Misfit>
    ensures { result ≡ crossed_of i n p }
{
    let w = network::side_at(n, i);
    let v = network::side_at(p, i);
    let a = w.o.quotient(w.e)?.negation()?;
    let b = v.o.quotient(v.e)?;
    let c = cost(n, w, p, v)?;
    Ok(Arc {
        from: w.other,
        to: v.other,
        cost: c,
        lower: Fraction::ZERO,
        upper: Fraction::NO_UPPER,
        a,
        b,
    })
}

// Four arcs take the numbers k, and a node is dropped.
fn edit_four(
    k: Numbers,
    a: Arc,
    b: Arc,
    c: Arc,
    d: Arc,
    gone: usize,
    constant: Fraction,
) -> network::Edit
    ensures { result ≡ edit_four k a b c d gone constant }
{
    let none = network::no_supply_update();
    network::Edit {
        one: step::numbered(k.first, a),
        two: step::numbered(k.second, b),
        three: step::numbered(k.third, c),
        four: step::numbered(k.fourth, d),
        left: none,
        right: none,
        gone,
        constant,
    }
}

// At node i of supply r; new are the four numbers upward.
fn cross(constant: Fraction, i: usize, r: Fraction, arcs: Four, new: Numbers) -> Outcome
    ensures { result ≡ crossed_at constant i r arcs.n1 arcs.n2 arcs.p1 arcs.p2 new }
{
    if !all_free(arcs) {
        return Err(Halt::Passes);
    }
    if !all_apart(arcs, i) {
        return Err(Halt::Passes);
    }
    let Four { n1, n2, p1, p2 } = arcs;
    let a = crossed(i, n1.arc, p1.arc)?;
    let b = crossed(i, n1.arc, p2.arc)?;
    let c = crossed(i, n2.arc, p1.arc)?;
    let d = crossed(i, n2.arc, p2.arc)?;
    let edit = edit_four(new, a, b, c, d, i, constant);
    let old = Old {
        node: i,
        supply: r,
        one: n1,
        two: n2,
        three: p1,
        four: p2,
        new,
    };
    Ok(Change { edit, old })
}

// One arc more.
fn sign_in(s: Signed, u: ArcUpdate, i: usize, below: bool) -> Signed
    ensures { result ≡ signed_in s u i below }
{
    let first = s.first;
    let second = s.second;
    if junctions::has_sign(u.arc, i, below) {
        if first.number == 0 {
            return Signed { first: u, second };
        }
        if second.number == 0 {
            return Signed { first, second: u };
        }
    }
    s
}

fn by_sign(near: Around, i: usize, below: bool) -> Signed
    ensures { result ≡ signed_of near i below }
{
    let none = network::no_update();
    let z = Signed {
        first: none,
        second: none,
    };
    let a = sign_in(z, near.one, i, below);
    let b = sign_in(a, near.two, i, below);
    let c = sign_in(b, near.three, i, below);
    sign_in(c, near.four, i, below)
}

// Rule 6 at node i of this degree and supply r, by the arcs there.
pub fn crossing(constant: Fraction, i: usize, degree: usize, r: Fraction, near: Around) -> Outcome
    ensures { result ≡ crossing_by constant i degree r near }
{
    if degree != 4 {
        return Err(Halt::Passes);
    }
    if !r.is_zero() {
        return Err(Halt::Passes);
    }
    let n = by_sign(near, i, true);
    if n.second.number == 0 {
        return Err(Halt::Passes);
    }
    let p = by_sign(near, i, false);
    if p.second.number == 0 {
        return Err(Halt::Passes);
    }
    let new = Numbers {
        first: near.one.number,
        second: near.two.number,
        third: near.three.number,
        fourth: near.four.number,
    };
    let arcs = Four {
        n1: n.first,
        n2: n.second,
        p1: p.first,
        p2: p.second,
    };
    cross(constant, i, r, arcs, new)
}

// ---- the way back

// The sum of the flows x and y ÷ e of an arc at node i.
fn share(x: Fraction, y: Fraction, t: Arc, i: usize) -> Worked
    ensures { result ≡ share_of x y t i }
{
    let w = network::side_at(t, i);
    x.sum(y)?.quotient(w.e)
}

// The price of node i, where the two N give p and q.
fn price(i: usize, p: Fraction, q: Fraction) -> PriceUpdate
    ensures { result ≡ price_of i p q }
{
    PriceUpdate {
        node: i,
        price: step::larger(p, q),
    }
}

// Its way back.
pub fn crossing_back(old: Old, pair: Pair) -> Undone
    ensures { result ≡ crossing_back old pair }
{
    let i = old.node;
    let n1 = old.one;
    let n2 = old.two;
    let p1 = old.three;
    let p2 = old.four;
    let a = network::pair::flow_at(pair, old.new.first);
    let b = network::pair::flow_at(pair, old.new.second);
    let c = network::pair::flow_at(pair, old.new.third);
    let d = network::pair::flow_at(pair, old.new.fourth);
    let x = share(a, b, n1.arc, i)?.negation()?;
    let y = share(c, d, n2.arc, i)?.negation()?;
    let z = share(a, c, p1.arc, i)?;
    let w = share(b, d, p2.arc, i)?;
    let p = junctions::quote(n1.arc, i, pair)?;
    let q = junctions::quote(n2.arc, i, pair)?;
    Ok(Restored {
        one: junctions::flow(n2, y),
        two: junctions::flow(n1, x),
        three: junctions::flow(p2, w),
        four: junctions::flow(p1, z),
        price: price(i, p, q),
    })
}
