// One step of a reduction: what a rule answers at a place (01, "The six reductions"), and what its way back answers.
#![tactic(auto, using(fraction::proofs::Laws::misfit_is), unfolding(fraction::specs::Formula::added, fraction::specs::Formula::subtracted, fraction::specs::Formula::multiplied, fraction::specs::Formula::divided, fraction::specs::Formula::negated, crate::specs::Outcome::fits, crate::specs::Dropped::supply_less, crate::specs::Dropped::cost_added, crate::specs::Dropped::gained, crate::specs::Dropped::dropped, crate::specs::Dropped::lower_back, crate::specs::Back::restored, crate::specs::Back::quote_at))]

ghost use Rattle.std.specs.Prelude.{◌≡◌, true, cond, ◌-◌, ◌≤◌, get_or, set, Ok};
ghost use Rattle.fraction.specs.Exact.{no_figure};
ghost use Rattle.fraction.specs.Formula.{◌⊖◌, ◌⊗◌, ◌⊘◌, ⊝◌};
ghost use Rattle.network.specs.Network.{is_number};
ghost use Rattle.network.specs.Pair.{with_price};
ghost use Rattle.network.specs.declared.pair.Pair.{Pair};
ghost use Rattle.step.specs.Back.{old_one, old_two, no_flow_update, nothing, two_flows, flow_only, price_only, flow_and_price, with_flow_of, restored, quote_at};
ghost use Rattle.step.specs.declared.Halt.TheVariants.{Passes};
ghost use Rattle.step.specs.Run.{is_found};
ghost use Rattle.step.specs.Figure.{larger as larger_of, smaller as smaller_of};
ghost use Rattle.step.specs.Dropped.{supply_less, cost_added, gained as gained_by, dropping as dropping_of, dropped, lower_back};

use fraction::{Fraction, Misfit, Worked};
use network::pair::Pair;
use network::{Arc, ArcUpdate, Nodes, Side, SupplyUpdate};

pub mod junctions;

// The numbers that a step's new arcs took, in the order in which the rule names them.
#[derive(Clone, Copy)]
pub struct Numbers {
    pub first: usize,
    pub second: usize,
    pub third: usize,
    pub fourth: usize,
}

// What the way back needs of a step: the node that it drops, or 0 (as in `network::ArcUpdate`), with its supply; the old arcs, each
// at its number, in the order in which the rule names them; and the numbers of the new arcs.
#[derive(Clone, Copy)]
pub struct Old {
    pub node: usize,
    pub supply: Fraction,
    pub one: ArcUpdate,
    pub two: ArcUpdate,
    pub three: ArcUpdate,
    pub four: ArcUpdate,
    pub new: Numbers,
}

// What a step changes in the network, and what its way back needs.
#[derive(Clone, Copy)]
pub struct Change {
    pub edit: network::Edit,
    pub old: Old,
}

// The arcs that touch a node, upward, as many as its degree, up to four. Here and above four by name and no array: no rule reads
// more, and definitions name them one by one.
#[derive(Clone, Copy)]
pub struct Around {
    pub one: ArcUpdate,
    pub two: ArcUpdate,
    pub three: ArcUpdate,
    pub four: ArcUpdate,
}

// Where a rule of nodes is tried: a node among those of the network, by its number, with its degree and the arcs there. Inside
// the rules, constant, node and supplies go one by one, as the definitions name them.
#[derive(Clone, Copy)]
pub struct Site<'a> {
    pub nodes: &'a Nodes,
    pub number: usize,
    pub degree: usize,
    pub near: Around,
}

impl Site<'_> {
    // The supply of node i, this one or another.
    pub fn supply_of(self, i: usize) -> Fraction
        ensures { result ≡ get_or self.entry.nodes.now.supply i no_figure }
    {
        network::figure_at(&self.nodes.supply, i)
    }
}

// Why a rule gives no change: it doesn't apply, or it shows no flow.
#[derive(Clone, Copy, PartialEq, Eq)]
pub enum Halt {
    Passes,
    NoFlow,
}

// "A rule some of whose figures don't fit doesn't apply at that place."
impl From<Misfit> for Halt {
    ghost from_gives = { λ _ h. h ≡ Passes };

    fn from(_misfit: Misfit) -> Halt {
        Halt::Passes
    }
}

// What a rule answers at a place.
pub type Outcome = Result<Change, Halt>;

// A flow for an arc; none where the arc is 0 (as in `network::ArcUpdate`).
#[derive(Clone, Copy)]
pub struct FlowUpdate {
    pub arc: usize,
    pub flow: Fraction,
}

// A price for a node; none where the node is 0 (as in `network::ArcUpdate`).
#[derive(Clone, Copy)]
pub struct PriceUpdate {
    pub node: usize,
    pub price: Fraction,
}

// The figures that the way back over a step restores.
#[derive(Clone, Copy)]
pub struct Restored {
    pub one: FlowUpdate,
    pub two: FlowUpdate,
    pub three: FlowUpdate,
    pub four: FlowUpdate,
    pub price: PriceUpdate,
}

// What the way back answers: these figures, or that some figure doesn't fit.
pub type Undone = Result<Restored, Misfit>;

// A step taken: its rule's number, its place, and its change. A rule is its number, and no enum: stack and log have it as a word, the
// table is indexed by it, and document 02 counts steps by it.
#[derive(Clone, Copy)]
pub struct Step {
    pub rule: usize,
    pub place: usize,
    pub change: Change,
}

// What the search finds: nothing, no flow with its rule and place, or the next step.
#[derive(Clone, Copy)]
pub enum Next {
    Stops,
    Refuted(usize, usize),
    Takes(Step),
}

impl Next {
    pub fn is_found(self) -> bool
        ensures { result ≡ is_found self }
    {
        !matches!(self, Next::Stops)
    }
}

// An arc at its number.
pub fn numbered(number: usize, arc: Arc) -> ArcUpdate
    ensures { result ≡ record { number = number; arc = arc } }
{
    ArcUpdate { number, arc }
}

// ---- an arc at a known flow is dropped: what rules 1, 3 and 4 share

// The supply s at an end less its multiplier times the flow; none where there is no end.
pub fn supply_less(end: usize, s: Fraction, e: Fraction, v: Fraction) -> Worked
    ensures { result ≡ supply_less end s e v }
{
    if end == 0 {
        return Ok(network::no_figure());
    }
    s.difference(e.product(v)?)
}

// The constant with the cost of a flow v added, c × v.
pub fn cost_added(constant: Fraction, c: Fraction, v: Fraction) -> Worked
    ensures { result ≡ cost_added constant c v }
{
    constant.sum(c.product(v)?)
}

// The constant where arc t of side w takes the supply r of a node with it: it gains c × r ÷ e.
pub fn gained(constant: Fraction, t: Arc, w: Side, r: Fraction) -> Worked
    ensures { result ≡ gained_by constant t w r }
{
    constant.sum(t.cost.product(r)?.quotient(w.e)?)
}

// Arc j dropped, with supplies for two nodes, a node dropped, and the constant.
pub fn dropping(
    j: usize,
    left: SupplyUpdate,
    right: SupplyUpdate,
    gone: usize,
    constant: Fraction,
) -> network::Edit
    ensures { result ≡ dropping_of j left.node left.supply right.node right.supply gone constant }
{
    let arc = network::no_arc();
    let put = ArcUpdate { number: j, arc };
    network::edit_one(put, left, right, gone, constant)
}

// Two old arcs, and the node that is dropped with its supply.
pub fn old_two(i: usize, r: Fraction, one: ArcUpdate, two: ArcUpdate) -> Old
    ensures { result ≡ old_two i r one two }
{
    let none = network::no_update();
    Old {
        node: i,
        supply: r,
        one,
        two,
        three: none,
        four: none,
        new: Numbers {
            first: 0,
            second: 0,
            third: 0,
            fourth: 0,
        },
    }
}

// One old arc.
pub fn old_one(i: usize, r: Fraction, one: ArcUpdate) -> Old
    ensures { result ≡ old_one i r one }
{
    old_two(i, r, one, network::no_update())
}

// An arc dropped at the flow v; left and right are the supplies of its ends.
pub fn drop_arc(
    constant: Fraction,
    at: ArcUpdate,
    v: Fraction,
    left: Fraction,
    right: Fraction,
) -> Outcome
    ensures { result ≡ dropped constant at.number at.arc v left right }
{
    let t = at.arc;
    let far = network::far_end(t);
    let r = supply_less(t.from, left, t.a, v)?;
    let s = supply_less(far, right, t.b, v)?;
    let k = cost_added(constant, t.cost, v)?;
    let one = SupplyUpdate {
        node: t.from,
        supply: r,
    };
    let two = SupplyUpdate {
        node: far,
        supply: s,
    };
    let edit = dropping(at.number, one, two, 0, k);
    let old = old_one(0, network::no_figure(), at);
    Ok(Change { edit, old })
}

// Back: flow l.
pub fn lower_back(old: Old) -> Undone
    ensures { (pair : Pair) → result ≡ lower_back old pair }
{
    Ok(flow_only(old.one.number, old.one.arc.lower))
}

// ---- an arc's figures taken over by another: what rules 5 and 8 share

// x less its share: x - y × e ÷ f.
pub fn less_share(x: Fraction, y: Fraction, e: Fraction, f: Fraction) -> Worked
    ensures { result ≡ (Ok x ⊖ Ok y ⊗ Ok e ⊘ Ok f) }
{
    x.difference(y.product(e)?.quotient(f)?)
}

// -(y × e ÷ f).
pub fn share_against(y: Fraction, e: Fraction, f: Fraction) -> Worked
    ensures { result ≡ ⊝ (Ok y ⊗ Ok e ⊘ Ok f) }
{
    y.product(e)?.quotient(f)?.negation()
}

// ---- the way back

// The pair with what is restored.
#[tactic(auto, unfolding(crate::specs::Back::restored, network::specs::Pair::with_flow, network::specs::Pair::with_price))]
pub fn restore(mut pair: Pair, r: Restored) -> Pair
    ensures { result ≡ restored pair r }
{
    put(&mut pair.flow, r.one.arc, r.one.flow);
    put(&mut pair.flow, r.two.arc, r.two.flow);
    put(&mut pair.flow, r.three.arc, r.three.flow);
    put(&mut pair.flow, r.four.arc, r.four.flow);
    put(&mut pair.price, r.price.node, r.price.price);
    pair
}

// A figure at a number, where there is such a number.
fn put<const N: usize>(figures: &mut [Fraction; N], i: usize, f: Fraction)
    requires { 1 ≤ N }
    ensures { figures.new ≡ cond (is_number (N - 1) i) (set figures.old i f) figures.old }
{
    if is_number(i, N - 1) {
        figures[i] = f;
    }
}

// Whether it is a number from 1 to a limit.
fn is_number(i: usize, limit: usize) -> bool
    ensures { (result ≡ is_number limit i) × (result ≡ true → i ≤ limit) }
{
    1 <= i && i <= limit
}

// No flow is restored.
pub fn no_flow() -> FlowUpdate
    ensures { result ≡ no_flow_update }
{
    FlowUpdate {
        arc: 0,
        flow: network::no_figure(),
    }
}

// Nothing is restored.
fn nothing() -> Restored
    ensures { result ≡ nothing }
{
    let none = no_flow();
    Restored {
        one: none,
        two: none,
        three: none,
        four: none,
        price: PriceUpdate {
            node: 0,
            price: network::no_figure(),
        },
    }
}

// ---- what is restored: numbers and figures one by one, as the definitions have them; rules 6 and 8 make theirs themselves

// Two flows.
pub fn two_flows(k: usize, y: Fraction, j: usize, x: Fraction) -> Restored
    ensures { result ≡ two_flows k y j x }
{
    Restored {
        one: FlowUpdate { arc: k, flow: y },
        two: FlowUpdate { arc: j, flow: x },
        ..nothing()
    }
}

// A flow alone.
pub fn flow_only(j: usize, x: Fraction) -> Restored
    ensures { result ≡ flow_only j x }
{
    Restored {
        one: FlowUpdate { arc: j, flow: x },
        ..nothing()
    }
}

// A price alone.
pub fn price_only(i: usize, p: Fraction) -> Restored
    ensures { result ≡ price_only i p }
{
    Restored {
        price: PriceUpdate { node: i, price: p },
        ..nothing()
    }
}

// A flow and a price.
pub fn flow_and_price(j: usize, x: Fraction, i: usize, p: Fraction) -> Restored
    ensures { result ≡ flow_and_price j x i p }
{
    Restored {
        price: PriceUpdate { node: i, price: p },
        ..flow_only(j, x)
    }
}

// The price that an arc gives node i, where p is the price at its other end: (c - o × p) ÷ e.
pub fn quote(t: Arc, i: usize, p: Fraction) -> Worked
    ensures { result ≡ quote_at t i p }
{
    let w = network::side_at(t, i);
    if w.other == 0 {
        return t.cost.quotient(w.e);
    }
    t.cost.difference(w.o.product(p)?)?.quotient(w.e)
}

// ---- what the rules choose

// x where b, and otherwise y.
pub fn either<T: Copy>(b: bool, x: T, y: T) -> T
    ensures { result ≡ cond b x y }
{
    if b { x } else { y }
}

pub fn larger(x: Fraction, y: Fraction) -> Fraction
    ensures { result ≡ larger_of x y }
{
    if x.less(y) { y } else { x }
}

pub fn smaller(x: Fraction, y: Fraction) -> Fraction
    ensures { result ≡ smaller_of x y }
{
    if y.less(x) { y } else { x }
}
