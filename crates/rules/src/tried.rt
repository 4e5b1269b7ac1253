// The rules tried at one place, each by what it needs of the network there.
// A test before a rule is tried costs little, and where it fails the rule passes.
#![tactic(auto, unfolding(step::specs::Run::rule_from, crate::specs::Tried::is_closed, fraction::specs::Exact::is_same))]

ghost use Rattle.std.specs.Prelude.{◌≡◌, get_or};
ghost use Rattle.fraction.specs.Exact.{no_figure};
ghost use Rattle.network.specs.Limits.{max_arcs};
ghost use Rattle.network.specs.ArcList.{joined};
ghost use Rattle.step.specs.declared.Next.TheVariants.{Stops};
ghost use Rattle.step.specs.Run.{or_else, upward, rule_of};
ghost use Rattle.closed_arc.specs.ClosedArc.{closed};
ghost use Rattle.costly_arc.specs.CostlyArc.{is_open_root, costly_arc};
ghost use Rattle.costly_arc.specs.Seen.{Known};
ghost use Rattle.parallel_arcs.specs.ParallelArcs.{alike};
ghost use Rattle.rules.specs.Table.{rules};
ghost use Rattle.rules.specs.Tried.{is_closed, asks_of, may_apply};

use costly_arc::{Found, Seen};
use fraction::Fraction;
use network::{Arc, ArcUpdate, MAX_ARCS, MAX_NODES, Net, Nodes};
use step::{Halt, Next, Outcome, Site, Step};

// The answer of rule k at place i.
fn answer(k: usize, i: usize, x: Outcome) -> Next
    ensures { result ≡ or_else k i x Stops }
{
    match x {
        Ok(change) => Next::Takes(Step {
            rule: k,
            place: i,
            change,
        }),
        Err(Halt::NoFlow) => Next::Refuted(k, i),
        Err(Halt::Passes) => Next::Stops,
    }
}

// ---- rule 1

// Whether an arc is in use, and its bounds cross or are equal.
pub fn is_closed(t: Arc) -> bool
    ensures { result ≡ is_closed t }
{
    t.from != 0 && (t.upper.less(t.lower) || t.lower == t.upper)
}

// Rule 1 at an arc.
pub fn at_arc(nodes: &Nodes, at: ArcUpdate) -> Next
    ensures { result ≡ or_else 1 at.number (closed nodes.now.constant at.number at.arc (get_or nodes.now.supply at.arc.from no_figure) (get_or nodes.now.supply at.arc.to no_figure)) Stops }
{
    let left = network::figure_at(&nodes.supply, at.arc.from);
    let right = network::figure_at(&nodes.supply, at.arc.to);
    let x = closed_arc::closed_arc(nodes.constant, at, left, right);
    answer(1, at.number, x)
}

// ---- the rules of nodes

// The highest rule of the table.
pub const LAST_RULE: usize = 7;

// How many places a rule has, the degree that it asks for, and whether it asks for supply 0. The places are read by no code: the
// contract of `asks_of` compares them with the table.
#[derive(Clone, Copy)]
pub struct Asks {
    pub places: usize,
    pub degree: usize,
    pub balanced: bool,
}

fn asking(places: usize, degree: usize, balanced: bool) -> Asks
    ensures { result ≡ record { places = places; degree = degree; balanced = balanced } }
{
    Asks {
        places,
        degree,
        balanced,
    }
}

// What rule k asks; where there is no such rule, it has no place. A match on the rule's number,
// arm by arm as the table's rows; an array would need a case beside it for every other number.
pub fn asks_of(k: usize) -> Asks
    ensures { result ≡ asks_of k }
{
    match k {
        1 => asking(MAX_ARCS, 0, false),
        2 => asking(MAX_NODES, 0, false),
        3 => asking(MAX_NODES, 1, false),
        4 => asking(MAX_ARCS, 0, false),
        5 => asking(MAX_NODES, 2, false),
        6 => asking(MAX_NODES, 4, true),
        7 => asking(MAX_ARCS, 0, false),
        _ => asking(0, 0, false),
    }
}

// Whether a supply is what a rule asks for.
pub fn may_apply(asks: Asks, r: Fraction) -> bool
    ensures { result ≡ may_apply asks r }
{
    !asks.balanced || r.is_zero()
}

// Rule k at a node: the one place that chooses a step by the rule's number (a match, as in `undo`). Rules 2 and 6 are
// given the node's own supply, as their definitions are.
pub fn try_node(k: usize, at: Site) -> Outcome
    ensures { result ≡ (rule_of rules k).trial.by at.entry.nodes.now.constant at.entry.nodes.now.supply at.entry.number at.entry.degree at.entry.near }
{
    let constant = at.nodes.constant;
    let r = at.supply_of(at.number);
    match k {
        2 => bare_node::bare_node(constant, at.number, at.degree, r),
        3 => single_arc::single_arc(at),
        5 => two_arcs::two_arcs(at),
        6 => crossing::crossing(constant, at.number, at.degree, r, at.near),
        _ => Err(Halt::Passes),
    }
}

pub fn at_node(k: usize, at: Site) -> Next
    ensures { result ≡ or_else k at.entry.number ((rule_of rules k).trial.by at.entry.nodes.now.constant at.entry.nodes.now.supply at.entry.number at.entry.degree at.entry.near) Stops }
{
    answer(k, at.number, try_node(k, at))
}

// ---- rule 4

pub fn is_root(t: Arc) -> bool
    ensures { result ≡ is_open_root t t.from }
{
    costly_arc::is_open_root(t, t.from)
}

// Rule 4 at the arcs upward, by what is known.
pub fn at_costly(net: Net, seen: Seen, time: u8) -> Found
    ensures { Known net time seen → (result.next ≡ upward (costly_arc net) 4 max_arcs 1 Stops) × Known net time result.seen }
{
    costly_arc::scan(net, seen, time)
}

// ---- rule 7

// Rule 7 at arcs j and k.
pub fn at_pair(constant: Fraction, j: ArcUpdate, k: ArcUpdate) -> Next
    ensures { result ≡ or_else 7 j.number (alike constant j.number j.arc k.number k.arc) Stops }
{
    answer(7, j.number, parallel_arcs::alike(constant, j, k))
}
