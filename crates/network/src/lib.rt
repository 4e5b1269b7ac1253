// A network (01, "The problem and its figures") as a reduction works on it.
#![tactic(auto)]

ghost use Rattle.std.specs.Prelude.{◌≡◌, ◌≤◌, List, get_or};
ghost use Rattle.network.specs.declared.Arc.{Arc};
ghost use Rattle.fraction.specs.Exact.{no_figure};
ghost use Rattle.network.specs.Limits.{arc_places};
ghost use Rattle.network.specs.ArcList.{nodes_of, joined};
ghost use Rattle.network.specs.Network.{no_arc, empty_net, arc_at, with_supply, without, applied};
ghost use Rattle.network.specs.internal.Linked.{next_of, last_of};
ghost use Rattle.network.specs.Network.{is_touching, raised, counted_at, Countable, is_root, far_end, side_of, no_update, no_supply_update, no_edit, edit_two, edit_one};

use fraction::Fraction;

pub mod list;
pub mod pair;

// The most nodes.
pub const MAX_NODES: usize = 32;

// The most arcs.
pub const MAX_ARCS: usize = 96;

// The places of nodes' numbers, which are from 1: place 0 is no node's.
pub const NODE_PLACES: usize = MAX_NODES + 1;

// The places of arcs' numbers: place 0 is no arc's.
pub const ARC_PLACES: usize = MAX_ARCS + 1;

// The most steps of a reduction.
pub const MAX_STEPS: usize = MAX_NODES + MAX_ARCS;

// An arc's seven figures: its from and to node, cost c, lower bound l, upper bound u, multipliers a and b.
// A number not in use has from 0 (as in `ArcUpdate`), as the lent list and the log have it.
#[derive(Clone, Copy)]
pub struct Arc {
    pub from: usize,
    pub to: usize,
    pub cost: Fraction,
    pub lower: Fraction,
    pub upper: Fraction,
    pub a: Fraction,
    pub b: Fraction,
}

// n nodes and m arcs were given, and the constant of the value. Each node and arc stands at its number, from 1: whether the
// node is in use, its supply r, and the arc. The supplies are an array of figures of their own, as prices and flows are (`pair`):
// `figure_at` and the writer of records serve all three, and a dropped node's supply can still be read.
#[derive(Clone, Copy)]
pub struct Net {
    pub n: usize,
    pub m: usize,
    pub constant: Fraction,
    pub here: [bool; NODE_PLACES],
    pub supply: [Fraction; NODE_PLACES],
    pub arcs: [Arc; ARC_PLACES],
}

// What a network is beside its arcs, which may stand in a lent list. A `Net` has these fields again and no `Nodes` in it, since
// definitions and contracts read them of a network at every turn.
#[derive(Clone, Copy)]
pub struct Nodes {
    pub n: usize,
    pub m: usize,
    pub constant: Fraction,
    pub here: [bool; NODE_PLACES],
    pub supply: [Fraction; NODE_PLACES],
}

// An arc for a number; none where the number is 0. Number 0 stands for none here and below, and no `Option` beside it: every
// array keeps place 0 for no node and no arc, and records and log have the number as a word (docs/DECISIONS.md, "Numbers, not
// places in lists").
#[derive(Clone, Copy)]
pub struct ArcUpdate {
    pub number: usize,
    pub arc: Arc,
}

// A supply for a node; none where the node is 0 (as in `ArcUpdate`).
#[derive(Clone, Copy)]
pub struct SupplyUpdate {
    pub node: usize,
    pub supply: Fraction,
}

// What a step changes, field by field as the rules name it: at most four arcs, two supplies, the node that is dropped, or 0 (as in
// `ArcUpdate`), and the constant.
#[derive(Clone, Copy)]
pub struct Edit {
    pub one: ArcUpdate,
    pub two: ArcUpdate,
    pub three: ArcUpdate,
    pub four: ArcUpdate,
    pub left: SupplyUpdate,
    pub right: SupplyUpdate,
    pub gone: usize,
    pub constant: Fraction,
}

// An arc at node i: its multiplier e there, the multiplier o at its other end, and that end, which is 0 for a root arc
// (as in `ArcUpdate`).
#[derive(Clone, Copy)]
pub struct Side {
    pub e: Fraction,
    pub o: Fraction,
    pub other: usize,
}

// What stands where there is nothing.
pub fn no_figure() -> Fraction
    ensures { result ≡ no_figure }
{
    Fraction { num: 0, den: 0 }
}

// The figure of number i; none where there is no such number.
pub fn figure_at(figures: &[Fraction], i: usize) -> Fraction
    ensures { result ≡ get_or figures.now i no_figure }
{
    figures.get(i).copied().unwrap_or(no_figure())
}

// What stands at a number not in use.
pub fn no_arc() -> Arc
    ensures { result ≡ no_arc }
{
    let z = no_figure();
    Arc {
        from: 0,
        to: 0,
        cost: z,
        lower: z,
        upper: z,
        a: z,
        b: z,
    }
}

// No node and no arc yet, of n and m, with a constant.
pub fn empty_net(n: usize, m: usize, constant: Fraction) -> Net
    ensures { result ≡ empty_net n m constant }
{
    Net {
        n,
        m,
        constant,
        here: [false; NODE_PLACES],
        supply: [no_figure(); NODE_PLACES],
        arcs: [no_arc(); ARC_PLACES],
    }
}

// A network without its arcs.
pub fn nodes_of(net: Net) -> Nodes
    ensures { result ≡ nodes_of net }
{
    let Net {
        n,
        m,
        constant,
        here,
        supply,
        ..
    } = net;
    Nodes {
        n,
        m,
        constant,
        here,
        supply,
    }
}

// A network of nodes and arcs.
pub fn join(nodes: Nodes, arcs: [Arc; ARC_PLACES]) -> Net
    ensures { result ≡ joined nodes arcs }
{
    let Nodes {
        n,
        m,
        constant,
        here,
        supply,
    } = nodes;
    Net {
        n,
        m,
        constant,
        here,
        supply,
        arcs,
    }
}

// The arc of number j.
pub fn arc_at(net: &Net, j: usize) -> Arc
    ensures { result ≡ arc_at net.now j }
{
    net.arcs.get(j).copied().unwrap_or(no_arc())
}

// The supply of node i replaced.
#[tactic(auto, unfolding(crate::specs::Network::with_supply))]
fn put_supply(mut nodes: Nodes, i: usize, f: Fraction) -> Nodes
    ensures { (xs : List Arc) → result ≡ nodes_of (with_supply (joined nodes xs) i f) }
{
    if 1 <= i && i < NODE_PLACES {
        nodes.supply[i] = f;
    }
    nodes
}

// Node i dropped.
#[tactic(auto, unfolding(crate::specs::Network::without))]
fn drop_node(mut nodes: Nodes, i: usize) -> Nodes
    ensures { (xs : List Arc) → result ≡ nodes_of (without (joined nodes xs) i) }
{
    if 1 <= i && i < NODE_PLACES {
        nodes.here[i] = false;
    }
    nodes
}

// The nodes and the constant after a step's change, whatever the arcs.
pub fn settle(nodes: Nodes, c: Edit) -> Nodes
    ensures { (xs : List Arc) → result ≡ nodes_of (applied (joined nodes xs) c) }
{
    let a = put_supply(nodes, c.left.node, c.left.supply);
    let b = drop_node(put_supply(a, c.right.node, c.right.supply), c.gone);
    Nodes {
        constant: c.constant,
        ..b
    }
}

// Whether an arc touches node i.
#[tactic(auto, unfolding(crate::specs::Network::is_touching))]
pub fn touches(t: Arc, i: usize) -> bool
    ensures { result ≡ is_touching t i }
{
    t.from == i || t.to == i
}

// One more at number i.
fn add_one(at: &mut [usize; NODE_PLACES], i: usize)
    requires { get_or at.old i 0 ≤ arc_places }
    ensures { at.new ≡ raised at.old i }
{
    if i < NODE_PLACES {
        at[i] += 1;
    }
}

// One more at each end of an arc.
#[tactic(auto, unfolding(crate::specs::Network::is_root))]
pub(crate) fn count_ends(at: &mut [usize; NODE_PLACES], t: Arc)
    requires { Countable at.old }
    ensures { at.new ≡ counted_at at.old t }
{
    add_one(at, t.from);
    if t.from != t.to {
        add_one(at, t.to);
    }
}

// The places of two nodes.
pub(crate) const END_PLACES: usize = NODE_PLACES * NODE_PLACES;

// Arc j, t, is taken, where it is in use: the last one between its ends is its next, and now it is the last.
pub(crate) fn link(next: &mut [u8; ARC_PLACES], last: &mut [u8; END_PLACES], j: usize, t: Arc)
    ensures { (next.new ≡ next_of next.old last.old j t.from t.to) × (last.new ≡ last_of last.old j t.from t.to) }
{
    let f = t.from;
    let e = t.to;
    if j < ARC_PLACES && 1 <= f && f < NODE_PLACES && e < NODE_PLACES {
        let k = f * NODE_PLACES + e;
        next[j] = last[k];
        last[k] = j as u8;
    }
}

// Whether an arc is a root arc.
#[tactic(auto, unfolding(crate::specs::Network::is_root))]
pub fn is_root(t: Arc) -> bool
    ensures { result ≡ is_root t }
{
    t.from == t.to
}

// The end of an arc that is not its from node; 0 for a root arc (as in `ArcUpdate`).
#[tactic(auto, unfolding(crate::specs::Network::far_end))]
pub fn far_end(t: Arc) -> usize
    ensures { result ≡ far_end t }
{
    if is_root(t) { 0 } else { t.to }
}

// An arc at node i.
#[tactic(auto, unfolding(crate::specs::Network::side_of))]
pub fn side_at(t: Arc, i: usize) -> Side
    ensures { result ≡ side_of t i }
{
    if t.from == i {
        Side {
            e: t.a,
            o: t.b,
            other: far_end(t),
        }
    } else {
        Side {
            e: t.b,
            o: t.a,
            other: t.from,
        }
    }
}

// No arc to be put.
pub fn no_update() -> ArcUpdate
    ensures { result ≡ no_update }
{
    ArcUpdate {
        number: 0,
        arc: no_arc(),
    }
}

// No supply to be put.
pub fn no_supply_update() -> SupplyUpdate
    ensures { result ≡ no_supply_update }
{
    SupplyUpdate {
        node: 0,
        supply: no_figure(),
    }
}

// A change of two arcs, two supplies, a node and the constant.
pub fn edit_two(
    one: ArcUpdate,
    two: ArcUpdate,
    left: SupplyUpdate,
    right: SupplyUpdate,
    gone: usize,
    constant: Fraction,
) -> Edit
    ensures { result ≡ edit_two one two left right gone constant }
{
    Edit {
        one,
        two,
        three: no_update(),
        four: no_update(),
        left,
        right,
        gone,
        constant,
    }
}

// A change of one arc.
pub fn edit_one(
    one: ArcUpdate,
    left: SupplyUpdate,
    right: SupplyUpdate,
    gone: usize,
    constant: Fraction,
) -> Edit
    ensures { result ≡ edit_one one left right gone constant }
{
    edit_two(one, no_update(), left, right, gone, constant)
}

// Nothing changed.
pub fn no_edit() -> Edit
    ensures { result ≡ no_edit }
{
    edit_one(
        no_update(),
        no_supply_update(),
        no_supply_update(),
        0,
        no_figure(),
    )
}
