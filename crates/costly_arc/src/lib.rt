// Rule 4: costly arc. A run keeps when each arc was put, and when a pair was sought for it in vain: no pair of root arcs is tried again.
#![tactic(auto)]

ghost use Rattle.std.specs.Prelude.{◌≡◌, get_or};
ghost use Rattle.fraction.specs.Exact.{no_figure};
ghost use Rattle.network.specs.Limits.{max_arcs};
ghost use Rattle.step.specs.declared.Next.TheVariants.{Stops};
ghost use Rattle.step.specs.Dropped.{dropped};
ghost use Rattle.step.specs.Run.{upward};
ghost use Rattle.costly_arc.specs.CostlyArc.{is_open_root, costly_arc};
ghost use Rattle.costly_arc.specs.Seen.{is_candidate, nothing_seen, marked, marked_all, Known};

use fraction::Fraction;
use network::{ARC_PLACES, Arc, ArcUpdate, Edit, NODE_PLACES, Net};
use step::{Halt, Next, Outcome, Step};

mod due;

// When an arc was put, and when a pair was last sought for it, in vain; 0 is before every search. `Known` is no ghost field of
// it: it speaks of a network too, and that changes between searches.
#[derive(Clone, Copy)]
pub struct Times {
    pub put: u8,
    pub sought: u8,
}

// The times of each arc, by its number.
pub type Seen = [Times; ARC_PLACES];

// What the search finds, and what is known then.
#[derive(Clone, Copy)]
pub struct Found {
    pub next: Next,
    pub seen: Seen,
}

// Nothing is known.
pub fn unseen() -> Seen
    ensures { result ≡ nothing_seen }
{
    [Times { put: 0, sought: 0 }; ARC_PLACES]
}

// Arc k is put now.
#[tactic(auto, unfolding(crate::specs::Seen::marked))]
fn mark(mut seen: Seen, k: usize, now: u8) -> Seen
    ensures { result ≡ marked seen k now }
{
    if k < ARC_PLACES {
        seen[k] = Times {
            put: now,
            sought: 0,
        };
    }
    seen
}

// The arcs of an edit are put now.
pub fn mark_all(seen: Seen, edit: Edit, now: u8) -> Seen
    ensures { result ≡ marked_all seen edit now }
{
    let a = mark(seen, edit.one.number, now);
    let b = mark(a, edit.two.number, now);
    let c = mark(b, edit.three.number, now);
    mark(c, edit.four.number, now)
}

// Whether x is a root arc at node i without upper bound.
#[tactic(auto, unfolding(crate::specs::CostlyArc::is_open_root))]
pub fn is_open_root(x: Arc, i: usize) -> bool
    ensures { result ≡ is_open_root x i }
{
    network::is_root(x) && x.from == i && x.upper.is_no_upper()
}

// Whether the rule asks for pairs: t is no root arc, and its lower bound is finite.
#[tactic(auto, unfolding(crate::specs::Seen::is_candidate, fraction::specs::Exact::is_finite))]
pub fn is_candidate(t: Arc) -> bool
    ensures { result ≡ is_candidate t }
{
    !network::is_root(t) && t.lower.den != 0
}

// An arc dropped at its lower bound.
fn at_lower(constant: Fraction, supply: &[Fraction; NODE_PLACES], at: ArcUpdate) -> Outcome
    ensures { result ≡ dropped constant at.number at.arc at.arc.lower (get_or supply.now at.arc.from no_figure) (get_or supply.now at.arc.to no_figure) }
{
    let left = network::figure_at(supply, at.arc.from);
    let right = network::figure_at(supply, at.arc.to);
    step::drop_arc(constant, at, at.arc.lower, left, right)
}

// The rule at arc j.
pub fn costly_arc(net: Net, j: usize) -> Outcome
    ensures { result ≡ costly_arc net j }
{
    let t = network::arc_at(&net, j);
    if !is_candidate(t) {
        return Err(Halt::Passes);
    }
    let seen = unseen();
    let at = due::all_times(net, seen);
    if !due::has_pair(net, seen, &at, 0, t) {
        return Err(Halt::Passes);
    }
    at_lower(net.constant, &net.supply, ArcUpdate { number: j, arc: t })
}

// The rule at its places upward, by what is known.
pub fn scan(net: Net, seen: Seen, now: u8) -> Found
    ensures { Known net now seen → (result.next ≡ upward (costly_arc net) 4 max_arcs 1 Stops) × Known net now result.seen }
{
    let at = due::all_times(net, seen);
    let mut known = seen;
    // by number: arcs and what is known are both read at it, and the latter is written
    for j in 1..ARC_PLACES {
        let t = net.arcs[j];
        let w = known[j].sought;
        if due::is_due(&at, w, t) {
            let u = ArcUpdate { number: j, arc: t };
            if let Ok(change) = at_lower(net.constant, &net.supply, u) {
                if due::has_pair(net, known, &at, w, t) {
                    let s = Step {
                        rule: 4,
                        place: j,
                        change,
                    };
                    return Found {
                        next: Next::Takes(s),
                        seen: known,
                    };
                }
                known[j].sought = now;
            }
        }
    }
    Found {
        next: Next::Stops,
        seen: known,
    }
}
