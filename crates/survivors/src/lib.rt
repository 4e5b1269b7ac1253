// What is left of a network, numbered from 1, and a pair of it at the original numbers.
#![tactic(auto)]

ghost use Rattle.std.specs.Prelude.{◌≡◌, length};
ghost use Rattle.loops.specs.Loops.{build, upto};
ghost use Rattle.network.specs.Limits.{max_nodes, max_arcs, node_places, arc_places};
ghost use Rattle.network.specs.Network.{empty_net, is_used};
ghost use Rattle.survivors.specs.Survivors.{rank_of, between, pack_node, pack_arc, packed_of, spread_of};
ghost use Rattle.survivors.specs.internal.Ranks.{placed, spread_figure};

use fraction::Fraction;
use network::pair::Pair;
use network::{ARC_PLACES, Arc, MAX_NODES, NODE_PLACES, Net};
use std::array;

// The new number of each node: how many nodes up to it are left.
fn node_ranks(net: Net, at: &mut [usize])
    requires { length at.old ≡ node_places }
    ensures { at.new ≡ build node_places (rank_of net) }
{
    let mut d: usize = 0;
    for (i, here) in net.here.iter().enumerate() {
        if *here {
            d += 1;
        }
        at[i] = d;
    }
}

// The new number at a place; beyond the last that of the last.
fn rank_in(at: &[usize; NODE_PLACES], i: usize) -> usize
    ensures { result ≡ placed at.now i }
{
    at[i.min(MAX_NODES)]
}

// An arc between the new numbers of its ends.
fn renumber(at: &[usize; NODE_PLACES], t: Arc) -> Arc
    ensures { result ≡ between (placed at.now t.from) (placed at.now t.to) t }
{
    Arc {
        from: rank_in(at, t.from),
        to: rank_in(at, t.to),
        ..t
    }
}

// The nodes that are left, and the constant.
fn pack_nodes(net: Net) -> Net
    ensures { (result ≡ upto (pack_node net) max_nodes (empty_net 0 0 net.constant)) × (result.m ≡ 0) }
{
    let mut p = network::empty_net(0, 0, net.constant);
    for (here, supply) in net.here.iter().zip(&net.supply).skip(1) {
        if *here {
            let k = p.n + 1;
            p.n = k;
            p.supply[k] = *supply;
            p.here[k] = true;
        }
    }
    p
}

// The arcs that are left, behind no arcs.
fn pack_arcs(net: Net, p: Net) -> Net
    requires { p.m ≡ 0 }
    ensures { result ≡ upto (pack_arc net) max_arcs p }
{
    let mut ranks = [0usize; NODE_PLACES];
    node_ranks(net, &mut ranks);
    let mut q = p;
    for t in &net.arcs[1..] {
        if t.from != 0 {
            let k = q.m + 1;
            q.m = k;
            q.arcs[k] = renumber(&ranks, *t);
        }
    }
    q
}

// The survivors in their order, numbered from 1.
pub fn pack(net: Net) -> Net
    ensures { result ≡ packed_of net }
{
    pack_arcs(net, pack_nodes(net))
}

// ---- a pair at the original numbers

// The figures of the numbers in use, in their order from 1, at the original numbers.
fn spread_figures<const N: usize>(used: &[bool; N], figures: &[Fraction; N]) -> [Fraction; N]
    ensures { result ≡ build N (spread_figure used.now figures.now N) }
{
    let mut at = [Fraction::ZERO; N];
    let mut d = 0;
    for (i, used) in used.iter().enumerate() {
        at[i] = if *used {
            d += 1;
            network::figure_at(figures, d)
        } else {
            Fraction::ZERO
        };
    }
    at
}

// Which arcs are in use.
fn arcs_used(net: Net) -> [bool; ARC_PLACES]
    ensures { result ≡ build arc_places (is_used net) }
{
    array::from_fn(|j| net.arcs[j].from != 0)
}

// A pair of the reduced network at the original numbers.
pub fn spread(net: Net, pair: Pair) -> Pair
    ensures { result ≡ spread_of net pair }
{
    let price = spread_figures(&net.here, &pair.price);
    let flow = spread_figures(&arcs_used(net), &pair.flow);
    Pair { price, flow }
}
