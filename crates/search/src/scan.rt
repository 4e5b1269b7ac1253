// The search for the next step: the rules in order, each at its places upward.
ghost use Rattle.std.specs.Prelude.{◌≡◌, true, ◌&&◌, ◌≤◌, eqb};
ghost use Rattle.network.specs.declared.Nodes.{Nodes};
ghost use Rattle.network.specs.Limits.{max_nodes, max_arcs};
ghost use Rattle.network.specs.ArcList.{net_in, record_at};
ghost use Rattle.network.specs.Network.{is_used, AreDegreesTo, touching_after, AreParallel};
ghost use Rattle.network.specs.Legal.{Legal};
ghost use Rattle.network.proofs.Legal.{legal-prop};
ghost use Rattle.step.specs.declared.Next.TheVariants.{Stops};
ghost use Rattle.step.specs.Back.{old_arc};
ghost use Rattle.step.specs.Around.{Near};
ghost use Rattle.step.specs.Run.{or_else, upward, rule_of};
ghost use Rattle.closed_arc.specs.ClosedArc.{closed_arc};
ghost use Rattle.costly_arc.specs.CostlyArc.{costly_arc};
ghost use Rattle.costly_arc.specs.Seen.{Known};
ghost use Rattle.parallel_arcs.specs.ParallelArcs.{parallel_arc};
ghost use Rattle.rules.specs.Table.{rules, last_rule, next_of};
ghost use Rattle.rules.specs.Tried.{is_of_nodes};

use costly_arc::{Found, Seen};
use network::{ARC_PLACES, Arc, ArcUpdate, NODE_PLACES, Nodes};
use step::{Around, Next, Site};

// The network that a run works on: its nodes, and the lent list in which its arcs stand. Scans go by number, the place of the step
// that is found; the list may hold fewer records than m.
#[derive(Clone, Copy)]
pub(crate) struct Working<'a> {
    pub(crate) nodes: &'a Nodes,
    pub(crate) arcs: &'a [Arc],
    ghost legal: { Legal (net_in nodes.now arcs.now) } by { legal-prop (net_in nodes.now arcs.now) },
}

impl Working<'_> {
    // The arc of number j, with its number.
    fn arc(self, j: usize) -> ArcUpdate
        ensures { result ≡ record { number = j; arc = record_at self.entry.arcs.now j } }
    {
        step::numbered(j, network::list::read(self.arcs, j))
    }

    // ---- rule 1

    // Rule 1 at the arcs upward. Of an arc that is not closed its bounds alone are read: with each arc read once and whole, a reduction
    // in 94 steps takes 2.7 % more instructions.
    fn closed(self) -> Next
        ensures { result ≡ upward (closed_arc (net_in self.entry.nodes.now self.entry.arcs.now)) 1 max_arcs 1 Stops }
    {
        for j in 1..self.nodes.m + 1 {
            if rules::tried::is_closed(network::list::read(self.arcs, j)) {
                let x = rules::tried::at_arc(self.nodes, self.arc(j));
                if x.is_found() {
                    return x;
                }
            }
        }
        Next::Stops
    }

    // ---- the rules of nodes

    // The next arc after number k that touches node i.
    fn arc_after(self, i: usize, k: usize) -> ArcUpdate
        ensures { result ≡ old_arc (net_in self.entry.nodes.now self.entry.arcs.now) (touching_after (net_in self.entry.nodes.now self.entry.arcs.now) i k) }
    {
        self.arc(network::list::touching(self.arcs, i, k))
    }

    // The arcs that touch node i of degree d.
    fn gather(self, i: usize, d: usize) -> Around
        ensures { Near (net_in self.entry.nodes.now self.entry.arcs.now) i d result }
    {
        let none = network::no_update();
        let one = if 1 <= d { self.arc_after(i, 0) } else { none };
        let two = if 2 <= d {
            self.arc_after(i, one.number)
        } else {
            none
        };
        let three = if 3 <= d {
            self.arc_after(i, two.number)
        } else {
            none
        };
        let four = if 4 <= d {
            self.arc_after(i, three.number)
        } else {
            none
        };
        Around {
            one,
            two,
            three,
            four,
        }
    }

    // Rule k at the nodes upward.
    fn at_nodes(self, degrees: &[usize; NODE_PLACES], k: usize) -> Next
        requires { AreDegreesTo (net_in self.nodes.now self.arcs.now) self.nodes.now.m degrees.now × (is_of_nodes k ≡ true) }
        ensures { result ≡ upward ((rule_of rules k).at (net_in self.entry.nodes.now self.entry.arcs.now)) k max_nodes 1 Stops }
    {
        let asks = rules::tried::asks_of(k);
        let d = asks.degree;
        for i in 1..self.nodes.n + 1 {
            if has_degree(self.nodes.here[i], degrees[i], d) {
                if rules::tried::may_apply(asks, self.nodes.supply[i]) {
                    let near = self.gather(i, d);
                    let at = Site {
                        nodes: self.nodes,
                        number: i,
                        degree: d,
                        near,
                    };
                    let x = rules::tried::at_node(k, at);
                    if x.is_found() {
                        return x;
                    }
                }
            }
        }
        Next::Stops
    }

    // ---- rule 4

    // Rule 4 at the arcs upward; where no arc is a root arc without upper bound, it applies nowhere.
    fn costly(self, seen: &mut Seen, time: u8) -> Next
        requires { Known (net_in self.nodes.now self.arcs.now) time seen.old }
        ensures { (result ≡ upward (costly_arc (net_in self.entry.nodes.now self.entry.arcs.now)) 4 max_arcs 1 Stops) × Known (net_in self.entry.nodes.now self.entry.arcs.now) time seen.new }
    {
        for j in 1..self.nodes.m + 1 {
            let t = network::list::read(self.arcs, j);
            if rules::tried::is_root(t) {
                let net = network::join(*self.nodes, network::list::view(self.arcs));
                let found = rules::tried::at_costly(net, *seen, time);
                let known = found.seen;
                *seen = known;
                return found.next;
            }
        }
        Next::Stops
    }

    // ---- rule 7

    // Rule 7 at arc j: the parallel arcs after it, upward.
    fn pairs(self, next: &[u8; ARC_PLACES], j: usize) -> Next
        requires { AreParallel (net_in self.nodes.now self.arcs.now) next.now × (is_used (net_in self.nodes.now self.arcs.now) j ≡ true) }
        ensures { result ≡ or_else 7 j (parallel_arc (net_in self.entry.nodes.now self.entry.arcs.now) j) Stops }
    {
        let mut k = next[j] as usize;
        while 1 <= k {
            let t = self.arc(j);
            let u = self.arc(k);
            if parallel_arcs::multiple::is_multiple(t.arc, u.arc) {
                let x = rules::tried::at_pair(self.nodes.constant, t, u);
                if x.is_found() {
                    return x;
                }
            }
            k = next[k] as usize;
        }
        Next::Stops
    }

    // Rule 7 at the arcs upward.
    fn parallel(self) -> Next
        ensures { result ≡ upward (parallel_arc (net_in self.entry.nodes.now self.entry.arcs.now)) 7 max_arcs 1 Stops }
    {
        let next = network::list::parallels(self.arcs, self.nodes.m);
        for j in 1..self.nodes.m + 1 {
            if next[j] != 0 {
                let x = self.pairs(&next, j);
                if x.is_found() {
                    return x;
                }
            }
        }
        Next::Stops
    }

    // ---- all rules

    // Rule k, from 2 on, at its places upward (a match on the rule's number, as in `rules::undo`).
    fn at_places(self, k: usize, degrees: &[usize; NODE_PLACES], seen: &mut Seen, time: u8) -> Next
        requires of_table { (2 ≤ k) × (k ≤ last_rule) }
        requires counted { AreDegreesTo (net_in self.nodes.now self.arcs.now) self.nodes.now.m degrees.now }
        requires known { Known (net_in self.nodes.now self.arcs.now) time seen.old }
        ensures { (result ≡ upward ((rule_of rules k).at (net_in self.entry.nodes.now self.entry.arcs.now)) k (rule_of rules k).last 1 Stops) × Known (net_in self.entry.nodes.now self.entry.arcs.now) time seen.new }
    {
        match k {
            4 => self.costly(seen, time),
            7 => self.parallel(),
            _ => self.at_nodes(degrees, k),
        }
    }

    // The next step: the first that applies. Degrees are counted where rule 1, which asks for none, finds nothing.
    pub(crate) fn next(self, mut seen: Seen, time: u8) -> Found
        requires { Known (net_in self.nodes.now self.arcs.now) time seen }
        ensures { (result.next ≡ next_of (net_in self.entry.nodes.now self.entry.arcs.now)) × Known (net_in self.entry.nodes.now self.entry.arcs.now) time result.seen }
    {
        let one = self.closed();
        if one.is_found() {
            return Found { next: one, seen };
        }
        let degrees = network::list::degrees(self.arcs, self.nodes.m);
        for k in 2..rules::tried::LAST_RULE + 1 {
            let x = self.at_places(k, &degrees, &mut seen, time);
            if x.is_found() {
                return Found { next: x, seen };
            }
        }
        Found {
            next: Next::Stops,
            seen,
        }
    }
}

// Whether a node is in use and of degree d.
fn has_degree(here: bool, degree: usize, d: usize) -> bool
    ensures { result ≡ (eqb degree d && here) }
{
    degree == d && here
}
