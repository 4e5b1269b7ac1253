// What is due: the root arcs that were put since a pair was last sought, and the cost by way of each.
ghost use Rattle.std.specs.Prelude.{◌≡◌, ◌+◌, cond, ltb, Ok};
ghost use Rattle.fraction.specs.Exact.{no_figure};
ghost use Rattle.fraction.specs.Formula.{figure_of, ◌⊗◌, ◌⊘◌};
ghost use Rattle.loops.specs.Loops.{any};
ghost use Rattle.network.specs.Limits.{arc_places};
ghost use Rattle.costly_arc.specs.CostlyArc.{is_positive, is_under, has_pair};
ghost use Rattle.costly_arc.specs.Seen.{Searched};
ghost use Rattle.costly_arc.specs.internal.Due.{way_of, ways_of, is_due_under, is_due_from, bar_of, Covers, later, is_fresh, is_due};

use crate::{Seen, is_candidate, is_open_root};
use fraction::{Fraction, Worked};
use network::{ARC_PLACES, Arc, NODE_PLACES, Net};

// The time p at node i, if it is later.
fn put_time(at: &mut [usize; NODE_PLACES], i: usize, p: usize)
    ensures { at.new ≡ later at.old i p }
{
    if i < NODE_PLACES && at[i] < p {
        at[i] = p;
    }
}

// The time after p.
fn after(p: u8) -> usize
    ensures { result ≡ p + 1 }
{
    usize::from(p) + 1
}

// For each node, a time after those at which its root arcs without upper bound were put; 0 where it has none.
pub(crate) fn all_times(net: Net, seen: Seen) -> [usize; NODE_PLACES]
    ensures { Covers net seen result }
{
    let mut at = [0; NODE_PLACES];
    for (k, x) in net.arcs.iter().enumerate() {
        if is_open_root(*x, x.from) {
            put_time(&mut at, x.from, after(seen[k].put));
        }
    }
    at
}

// Whether a root arc without upper bound may have been put at node i at the time w or later.
#[tactic(auto, unfolding(crate::specs::internal::Due::is_fresh))]
fn is_fresh(at: &[usize; NODE_PLACES], w: u8, i: usize) -> bool
    ensures { result ≡ is_fresh at.now w i }
{
    NODE_PLACES <= i || (w as usize) < at[i]
}

// Whether t is a candidate with root arcs at both ends, some of them put at the time w or later.
#[tactic(auto, unfolding(crate::specs::internal::Due::is_due))]
pub(crate) fn is_due(at: &[usize; NODE_PLACES], w: u8, t: Arc) -> bool
    ensures { result ≡ is_due at.now w t }
{
    if !is_candidate(t) || !is_fresh(at, 0, t.from) || !is_fresh(at, 0, t.to) {
        return false;
    }
    is_fresh(at, w, t.from) || is_fresh(at, w, t.to)
}

fn is_positive(w: Worked) -> bool
    ensures { result ≡ is_positive w }
{
    w.is_ok_and(|x| Fraction::ZERO.less(x))
}

fn is_under(w: Worked, c: Fraction) -> bool
    ensures { result ≡ is_under w c }
{
    w.is_ok_and(|x| x.less(c))
}

// c1 × a ÷ a1, for the root arc x and the multiplier a.
#[tactic(auto, using(fraction::proofs::Laws::misfit_is), unfolding(fraction::specs::Formula::multiplied, fraction::specs::Formula::divided))]
fn cost_by(x: Arc, a: Fraction) -> Worked
    ensures { result ≡ Ok x.cost ⊗ Ok a ⊘ Ok x.a }
{
    x.cost.product(a)?.quotient(x.a)
}

// No way is a figure over 0: an Option is tried, and misses the speed bar (3.6 % more instructions at `pairs 2/96`, 1.6 % with its memset left out).
// The cost by way of the root arc x, where the multiplier is e; none where x doesn't serve.
#[tactic(auto, using(fraction::proofs::Laws::misfit_is), unfolding(fraction::specs::Formula::divided))]
fn way(x: Arc, e: Fraction) -> Fraction
    ensures { result ≡ cond (is_positive (Ok e ⊘ Ok x.a)) (figure_of (Ok x.cost ⊗ Ok e ⊘ Ok x.a)) no_figure }
{
    if is_positive(e.quotient(x.a)) {
        return cost_by(x, e).unwrap_or(network::no_figure());
    }
    network::no_figure()
}

// It at node i; none where x is old, or no root arc there.
#[tactic(auto, unfolding(crate::specs::internal::Due::way_of))]
fn way_at(old: bool, x: Arc, i: usize, e: Fraction) -> Fraction
    ensures { result ≡ way_of old x i e }
{
    if is_open_root(x, i) && !old {
        return way(x, e);
    }
    network::no_figure()
}

// The costs by way of a root arc, at the from node and at the to node of an arc.
#[derive(Clone, Copy)]
struct Both {
    from: Fraction,
    to: Fraction,
}

// Those by way of x, put at the time `put`: at the from node of t it is old before the time p, at the to node before the time q.
fn both_ways(t: Arc, x: Arc, put: u8, p: u8, q: u8) -> Both
    ensures { result ≡ record { from = way_of (ltb put p) x t.from t.a; to = way_of (ltb put q) x t.to t.b } }
{
    Both {
        from: way_at(put < p, x, t.from, t.a),
        to: way_at(put < q, x, t.to, t.b),
    }
}

// The costs by way of each root arc, at both ends of t.
fn all_ways(net: Net, seen: Seen, p: u8, q: u8, t: Arc) -> [Both; ARC_PLACES]
    ensures { result ≡ ways_of net seen p q t }
{
    let none = network::no_figure();
    let neither = Both {
        from: none,
        to: none,
    };
    let mut ways = [neither; ARC_PLACES];
    for (k, x) in net.arcs.iter().enumerate() {
        if is_open_root(*x, x.from) {
            ways[k] = both_ways(t, *x, seen[k].put, p, q);
        }
    }
    ways
}

// Whether a way put at the time w or later makes with q a sum below c.
fn any_due_under(seen: Seen, w: u8, q: Fraction, ways: &[Both; ARC_PLACES], c: Fraction) -> bool
    ensures { result ≡ any (is_due_under seen w q ways.now c) arc_places }
{
    for (k, both) in ways.iter().enumerate() {
        let y = both.to;
        if y.den != 0 && seen[k].put >= w && is_under(q.sum(y), c) {
            return true;
        }
    }
    false
}

// The time from which the partners of what is old, before the time w, or not, are due.
fn bar(old: bool, w: u8) -> u8
    ensures { result ≡ bar_of old w }
{
    if old { w } else { 0 }
}

// Whether two ways, one of them put at the time w or later, make a sum below c.
fn any_due_pair(seen: Seen, w: u8, ways: &[Both; ARC_PLACES], c: Fraction) -> bool
    ensures { result ≡ any (is_due_from seen w ways.now c) arc_places }
{
    for (k, both) in ways.iter().enumerate() {
        let q = both.from;
        if q.den != 0 && any_due_under(seen, bar(seen[k].put < w, w), q, ways, c) {
            return true;
        }
    }
    false
}

// Whether some pair of root arcs, at the from node and at the to node, makes t costly, where none is known from before the time w.
pub(crate) fn has_pair(net: Net, seen: Seen, at: &[usize; NODE_PLACES], w: u8, t: Arc) -> bool
    ensures { Searched net seen w t → Covers net seen at.now → result ≡ has_pair net t }
{
    let p = bar(!is_fresh(at, w, t.to), w);
    let q = bar(!is_fresh(at, w, t.from), w);
    let ways = all_ways(net, seen, p, q, t);
    any_due_pair(seen, w, &ways, t.cost)
}
