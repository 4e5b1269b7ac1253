// The lent list of arc records (01, "Records"): the working arcs, one record for each number, from 1. What takes the list counts,
// reads, replaces and clears its records, and no more; functions on an arc by value do the arithmetic.
ghost use Rattle.std.specs.Prelude.{◌≡◌, ◌+◌, length};
ghost use Rattle.network.specs.declared.Nodes.{Nodes};
ghost use Rattle.network.specs.ArcList.{record_at, replaced, replaced_all, no_arcs, arcs_in, net_in};
ghost use Rattle.network.specs.Network.{AreDegreesTo, touching_after, AreParallel};
ghost use Rattle.network.specs.Legal.{Legal};

use crate::{ARC_PLACES, Arc, ArcUpdate, END_PLACES, Edit, MAX_ARCS, NODE_PLACES};

// How many records there are.
pub fn count(arcs: &[Arc]) -> usize
    ensures { result ≡ length arcs.now }
{
    arcs.len()
}

// The record of number j; zeros where there is none.
#[tactic(auto, unfolding(crate::specs::ArcList::record_at))]
pub fn read(arcs: &[Arc], j: usize) -> Arc
    ensures { result ≡ record_at arcs.now j }
{
    if 1 <= j && j <= arcs.len() {
        arcs[j - 1]
    } else {
        crate::no_arc()
    }
}

// The record of number j replaced, where there is one.
#[tactic(auto, unfolding(crate::specs::ArcList::replaced))]
pub fn replace(arcs: &mut [Arc], j: usize, t: Arc)
    ensures { arcs.new ≡ replaced arcs.old j t }
{
    if 1 <= j && j <= arcs.len() {
        arcs[j - 1] = t;
    }
}

// Every number of every record becomes zero, however long the list is.
pub fn clear(arcs: &mut [Arc])
    ensures { arcs.new ≡ no_arcs (length arcs.old) }
{
    arcs.fill(crate::no_arc());
}

// The arcs at their numbers, by value.
pub fn view(arcs: &[Arc]) -> [Arc; ARC_PLACES]
    ensures { result ≡ arcs_in arcs.now }
{
    let mut at = [crate::no_arc(); ARC_PLACES];
    let n = arcs.len().min(MAX_ARCS);
    at[1..n + 1].copy_from_slice(&arcs[..n]);
    at
}

// The first arc after number k that touches node i; 0 where there is none.
// A number and no Option, since it becomes the number of an ArcUpdate, which is 0 where there is no arc.
pub fn touching(arcs: &[Arc], i: usize, k: usize) -> usize
    ensures { (nodes : Nodes) → result ≡ touching_after (net_in nodes arcs.now) i k }
{
    if MAX_ARCS <= k {
        return 0;
    }
    // by number, which is the answer
    for j in k + 1..ARC_PLACES {
        if crate::touches(read(arcs, j), i) {
            return j;
        }
    }
    0
}

// How many arcs of the numbers up to m touch each node. The loop goes by number: one that no record has, as 0, is no arc, and
// counts at place 0.
pub fn degrees(arcs: &[Arc], m: usize) -> [usize; NODE_PLACES]
    ensures { (nodes : Nodes) → AreDegreesTo (net_in nodes arcs.now) m result }
{
    let mut at = [0; NODE_PLACES];
    for j in 0..m.min(MAX_ARCS) + 1 {
        crate::count_ends(&mut at, read(arcs, j));
    }
    at
}

// The next parallel arc of each arc, of the numbers up to m; 0 where there is none (as in `ArcUpdate`). The loop goes by number,
// which is what `link` writes down.
pub fn parallels(arcs: &[Arc], m: usize) -> [u8; ARC_PLACES]
    ensures { (nodes : Nodes) → nodes.m ≡ m → Legal (net_in nodes arcs.now) → AreParallel (net_in nodes arcs.now) result }
{
    let mut next = [0; ARC_PLACES];
    let mut last = [0; END_PLACES];
    for k in (0..m).rev() {
        crate::link(&mut next, &mut last, k + 1, read(arcs, k + 1));
    }
    next
}

// An arc put at its number.
pub(crate) fn put_update(arcs: &mut [Arc], p: ArcUpdate)
    ensures { arcs.new ≡ replaced arcs.old p.number p.arc }
{
    replace(arcs, p.number, p.arc);
}

// The arcs of a step's change put at their numbers.
#[tactic(auto, unfolding(crate::specs::ArcList::replaced_all))]
pub fn put_edit(arcs: &mut [Arc], c: Edit)
    ensures { arcs.new ≡ replaced_all arcs.old c }
{
    put_update(arcs, c.one);
    put_update(arcs, c.two);
    put_update(arcs, c.three);
    put_update(arcs, c.four);
}
