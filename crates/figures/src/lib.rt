// The figures of the test: balances, reduced costs and the value; and its questions 9 to 12. The two loops go by number: a network
// may say more nodes and arcs than have a place, which no slice of them can.
#![tactic(auto, using(fraction::proofs::Laws::misfit_is), unfolding(fraction::specs::Formula::added, fraction::specs::Formula::subtracted, fraction::specs::Formula::multiplied, fraction::specs::Exact::is_same, crate::specs::Figures::reduced_cost, crate::specs::Figures::is_within, crate::specs::Figures::balance_of, crate::specs::Figures::value_of))]

ghost use Rattle.std.specs.Prelude.{◌≡◌, cond, ◌&&◌, not, [], ◌∷◌, ℕ, ◌+◌, ◌<◌, eqb, Ok};
ghost use Rattle.std.specs.Borrow.{MutBor};
ghost use Rattle.loops.specs.Loops.{all, upto};
ghost use Rattle.fraction.specs.Exact.{no_figure, is_same};
ghost use Rattle.fraction.specs.Formula.{is_fit, figure_of, ◌⊕◌, ◌⊖◌, ◌⊗◌};
ghost use Rattle.network.specs.Limits.{node_places};
ghost use Rattle.network.specs.Network.{arc_at, is_touching, is_root, side_of};
ghost use Rattle.network.specs.Pair.{flow_at};
ghost use Rattle.records.specs.Questions.{◌asks◌, first_no};
ghost use Rattle.figures.specs.Figures.{balance_of, value_of, balance_fits, cost_fits, is_balanced, is_within, is_within_at, keeps_rule_at, test_questions};
ghost use Rattle.figures.specs.internal.Listed.{sum_at, place_of, to_place, with_arc, cost_in, asked};
ghost use Rattle.slackness.specs.Slackness.{keeps_rule};

use fraction::{Fraction, Worked};
use network::pair::Pair;
use network::{Arc, MAX_NODES, NODE_PLACES, Net};
use records::refusal::Refusal;

// What questions 9 to 12 of a pair answer, and its value.
#[derive(Clone, Copy)]
pub struct Judged {
    pub asked: Result<(), Refusal>,
    pub value: Fraction,
}

// The places of balances: those of nodes, and one that is no node's.
const SUM_PLACES: usize = NODE_PLACES + 1;

// Whether all balances fit, and whether every node is balanced.
#[derive(Clone, Copy)]
struct Nodes {
    fit: bool,
    balanced: bool,
}

// Whether all reduced costs fit, all flows are within bounds, and the price rule is kept.
#[derive(Clone, Copy)]
struct Arcs {
    fit: bool,
    within: bool,
    kept: bool,
}

// One term more to a sum, e × x.
fn add_term(w: &mut Worked, e: Fraction, x: Fraction)
    ensures { w.new ≡ w.old ⊕ Ok e ⊗ Ok x }
{
    *w = w.and_then(|y| y.sum(e.product(x)?));
}

// The arcs 1 to m with their flows, upward: each turn takes the state on.
fn over_arcs<S, F: Fn(&mut S, Arc, Fraction)>(net: &Net, pair: &Pair, start: S, turn: F) -> S
    requires { F.IsAlwaysCallable turn }
    ensures { (f : ℕ → S → S) → ((j : ℕ) (s r : MutBor S) → F.post turn s (arc_at net.now (j + 1)) (flow_at pair.now (j + 1)) tt r → r.now ≡ f j s.now) → result ≡ upto f net.now.m start }
{
    let mut s = start;
    for j in 0..net.m {
        let t = network::arc_at(net, j + 1);
        let x = network::figure_at(&pair.flow, j + 1);
        turn(&mut s, t, x);
    }
    s
}

// The flow of one arc more to a balance of node i, where it touches the node.
fn add_flow(w: &mut Worked, t: Arc, x: Fraction, i: usize)
    ensures { w.new ≡ cond (is_touching t i) (w.old ⊕ Ok (side_of t i).e ⊗ Ok x) w.old }
{
    if network::touches(t, i) {
        add_term(w, network::side_at(t, i).e, x);
    }
}

// The balance of node i.
pub fn balance(net: Net, pair: Pair, i: usize) -> Worked
    ensures { result ≡ balance_of net pair i }
{
    let zero = Ok(Fraction::ZERO);
    over_arcs(&net, &pair, zero, |w, t, x| add_flow(w, t, x, i))
}

// A difference with one term more, e × x.
fn less_term(w: Worked, e: Fraction, x: Fraction) -> Worked
    ensures { result ≡ w ⊖ Ok e ⊗ Ok x }
{
    w?.difference(e.product(x)?)
}

// An arc's reduced cost, by the prices of its ends.
fn reduced(t: Arc, p: Fraction, q: Fraction) -> Worked
    ensures { result ≡ cond (is_root t) (Ok t.cost ⊖ Ok t.a ⊗ Ok p) (Ok t.cost ⊖ Ok t.a ⊗ Ok p ⊖ Ok t.b ⊗ Ok q) }
{
    let first = less_term(Ok(t.cost), t.a, p);
    if network::is_root(t) {
        return first;
    }
    less_term(first, t.b, q)
}

// An arc's reduced cost.
fn reduced_cost(t: Arc, price: [Fraction; NODE_PLACES]) -> Worked
    ensures { result ≡ cost_in price t }
{
    reduced(
        t,
        network::figure_at(&price, t.from),
        network::figure_at(&price, t.to),
    )
}

// The value, from the constant on.
pub fn value(net: Net, pair: Pair) -> Worked
    ensures { result ≡ value_of net pair }
{
    let start = Ok(net.constant);
    over_arcs(&net, &pair, start, |w, t, x| add_term(w, t.cost, x))
}

// The place of node k among the balances; the last where it has none.
fn place_of(k: usize) -> usize
    ensures { result ≡ place_of k }
{
    k.min(NODE_PLACES)
}

// The place of an arc's to node; the last for a root arc.
fn to_place(t: Arc) -> usize
    ensures { result ≡ to_place t }
{
    if network::is_root(t) {
        return NODE_PLACES;
    }
    place_of(t.to)
}

// The balances of the nodes, and the flow of one arc more.
fn add_arc(s: &mut [Worked; SUM_PLACES], t: Arc, x: Fraction)
    ensures { s.new ≡ with_arc s.old t x }
{
    let from = place_of(t.from);
    let to = to_place(t);
    add_term(&mut s[from], t.a, x);
    add_term(&mut s[to], t.b, x);
}

// The balances of the nodes, arcs upward.
fn balances(net: &Net, pair: &Pair) -> [Worked; SUM_PLACES]
    ensures { (i : ℕ) → i < node_places → sum_at result i ≡ balance_of net.now pair.now i }
{
    let zero: Worked = Ok(Fraction::ZERO);
    over_arcs(net, pair, [zero; SUM_PLACES], add_arc)
}

// One node more, of balance w and supply r.
fn ask_node(a: Nodes, w: Worked, r: Fraction) -> Nodes
    ensures { (result.fit ≡ (a.fit && is_fit w)) × (result.balanced ≡ (a.balanced && is_same (figure_of w) r)) }
{
    let fit = a.fit && w.is_ok();
    let balanced = a.balanced && w.unwrap_or(network::no_figure()) == r;
    Nodes { fit, balanced }
}

// Questions 9 and 10 of all nodes.
fn ask_nodes(net: &Net, pair: &Pair) -> Nodes
    ensures { (result.fit ≡ all (balance_fits net.now pair.now) net.now.n) × (result.balanced ≡ all (is_balanced net.now pair.now) net.now.n) }
{
    let s = balances(net, pair);
    let mut a = Nodes {
        fit: true,
        balanced: true,
    };
    for i in 0..net.n {
        let w = if i < MAX_NODES {
            s[i + 1]
        } else {
            balance(*net, *pair, i + 1)
        };
        a = ask_node(a, w, network::figure_at(&net.supply, i + 1));
    }
    a
}

// Whether a flow is within an arc's bounds.
fn is_within(t: Arc, x: Fraction) -> bool
    ensures { result ≡ is_within t x }
{
    !x.less(t.lower) && !t.upper.less(x)
}

// One arc more, with its flow and all prices.
fn ask_arc(a: Arcs, t: Arc, x: Fraction, price: [Fraction; NODE_PLACES]) -> Arcs
    ensures { result ≡ asked a t x price }
{
    let w = reduced_cost(t, price);
    let fit = a.fit && w.is_ok();
    let within = a.within && is_within(t, x);
    let kept = a.kept
        && slackness::keeps_rule(t.lower, t.upper, x, w.unwrap_or(network::no_figure()));
    Arcs { fit, within, kept }
}

// Questions 9, 11 and 12 of all arcs.
fn ask_arcs(net: &Net, pair: &Pair) -> Arcs
    ensures { (result.fit ≡ all (cost_fits net.now pair.now) net.now.m) × (result.within ≡ all (is_within_at net.now pair.now) net.now.m) × (result.kept ≡ all (keeps_rule_at net.now pair.now) net.now.m) }
{
    let none = Arcs {
        fit: true,
        within: true,
        kept: true,
    };
    over_arcs(
        net,
        pair,
        none,
        |a, t, x| *a = ask_arc(*a, t, x, pair.price),
    )
}

// The first of the questions 9 to 12 that is answered by no, by what is asked of nodes and arcs and by whether the value fits.
fn first_no(nodes: Nodes, arcs: Arcs, fits: bool) -> Result<(), Refusal>
    ensures { result ≡ first_no (Refusal.Width asks (nodes.fit && (arcs.fit && fits)) ∷ Refusal.Balance asks nodes.balanced ∷ Refusal.Bounds asks arcs.within ∷ Refusal.Prices asks arcs.kept ∷ []) }
{
    Refusal::Width.unless(nodes.fit && arcs.fit && fits)?;
    Refusal::Balance.unless(nodes.balanced)?;
    Refusal::Bounds.unless(arcs.within)?;
    Refusal::Prices.unless(arcs.kept)
}

// The questions 9 to 12 of a pair, and its value, also where one is answered by no.
#[tactic(auto, unfolding(crate::specs::Figures::all_fit, crate::specs::Figures::test_questions))]
pub fn verdict(net: Net, pair: Pair) -> Judged
    ensures { (result.asked ≡ first_no (test_questions net pair)) × (result.value ≡ figure_of (value_of net pair)) }
{
    let nodes = ask_nodes(&net, &pair);
    let arcs = ask_arcs(&net, &pair);
    let value = value(net, pair);
    Judged {
        asked: first_no(nodes, arcs, value.is_ok()),
        value: value.unwrap_or(network::no_figure()),
    }
}
