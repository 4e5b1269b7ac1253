// A network's record: the questions 2 to 5 before work, the network that it holds, and the record of a network.
ghost use Rattle.std.specs.Prelude.{◌≡◌, true, false, MatchOption, List, ◌+◌, ◌*◌, ◌≤◌, ◌<◌, length};
ghost use Rattle.loops.specs.Loops.{all, upto, build};
ghost use Rattle.network.specs.declared.Arc.{Arc};
ghost use Rattle.network.specs.declared.Nodes.{Nodes};
ghost use Rattle.network.specs.Limits.{max_nodes, max_arcs, arc_places};
ghost use Rattle.network.specs.Network.{empty_net};
ghost use Rattle.network.specs.ArcList.{no_arcs, nodes_of, joined};
ghost use Rattle.records.specs.Arrays.{figure_at, arrays_of};
ghost use Rattle.records.specs.Limits.{network_figures};
ghost use Rattle.records.specs.Questions.{first_no};
ghost use Rattle.records.specs.internal.Put.{num_of, den_of, arcs_put};
ghost use Rattle.records.specs.Network.{n_of, m_of, figures, sizes_right, role_of, is_permitted, is_in_form, is_end, has_ends, arc_in, is_weighted, is_weighted_at, questions, node_turn, arc_turn, read_of, load_turn, loaded, role_figure, figure_of, network_of};

use crate::refusal::Refusal;
use fraction::Fraction;
use network::{ARC_PLACES, Arc, MAX_ARCS, MAX_NODES, NODE_PLACES, Net, Nodes};

// ---- the questions, and reading

// The words of a network's record, with the sizes that they begin with.
#[derive(Clone, Copy)]
pub(crate) struct Record<'a> {
    words: &'a [i32],
    n: usize,
    m: usize,
    ghost few_nodes: { n ≤ max_nodes },
    ghost few_arcs: { m ≤ max_arcs },
    ghost long: { 2 + 2 * figures n m ≡ length words.now },
}

// Whether figure k is a fraction in form, or the mark that its place permits: the bounds are 3 and 4 of an arc's seven figures, from 0.
#[tactic(auto, unfolding(crate::specs::Network::is_permitted, crate::specs::Network::role_of, fraction::specs::Exact::is_same))]
fn permitted(n: usize, k: usize, f: Fraction) -> bool
    ensures { result ≡ is_permitted (role_of n k) f }
{
    f.is_proper()
        || n < k
            && match (k - n - 1) % 7 {
                3 => f == Fraction::NO_LOWER,
                4 => f == Fraction::NO_UPPER,
                _ => false,
            }
}

// Whether a figure is whole and from 1 to n.
#[tactic(auto, unfolding(crate::specs::Network::is_end))]
fn is_end(n: usize, f: Fraction) -> bool
    ensures { result ≡ is_end n f }
{
    let i = fraction::words::natural_of(f);
    f.den == 1 && 1 <= i && i <= n
}

// Whether of an arc a is nonzero, and b zero exactly where from = to.
#[tactic(auto, unfolding(crate::specs::Network::is_weighted, network::specs::Network::is_root))]
fn is_weighted(t: Arc) -> bool
    ensures { result ≡ is_weighted t }
{
    !t.a.is_zero() && t.b.is_zero() == (t.from == t.to)
}

// No node in use yet, of n nodes and m arcs, with a constant. No plainer: `nodes_of(empty_net(..))` says it over 97 arcs that are
// then dropped.
fn no_nodes(n: usize, m: usize, constant: Fraction) -> Nodes
    ensures { result ≡ nodes_of (empty_net n m constant) }
{
    let f = network::no_figure();
    Nodes {
        n,
        m,
        constant,
        here: [false; NODE_PLACES],
        supply: [f; NODE_PLACES],
    }
}

impl<'a> Record<'a> {
    // Question 2: the record, where the sizes are within limits and the length is right.
    fn of(words: &'a [i32]) -> Option<Record<'a>>
        ensures { MatchOption result (sizes_right words.now ≡ false) (λ r. (sizes_right words.now ≡ true) × (r.words.now ≡ words.now) × (r.n ≡ n_of words.now) × (r.m ≡ m_of words.now)) }
    {
        let n = crate::size_at(words, 0, MAX_NODES)?;
        let m = crate::size_at(words, 1, MAX_ARCS)?;
        if words.len() == 2 + 2 * (1 + n + 7 * m) {
            Some(Record { words, n, m })
        } else {
            None
        }
    }

    // How many figures there are.
    fn count(self) -> usize
        ensures { result ≡ figures self.entry.n self.entry.m }
    {
        1 + self.n + 7 * self.m
    }

    // Figure k.
    fn figure(self, k: usize) -> Fraction
        requires { k < figures self.n self.m }
        ensures { result ≡ figure_at self.entry.words.now (figures self.entry.n self.entry.m) k }
    {
        let num = self.words[2 + k];
        let den = self.words[2 + self.count() + k];
        Fraction::from_words(num, den)
    }

    // The arc of number j + 1.
    fn arc(self, j: usize) -> Arc
        requires { j < self.m }
        ensures { result ≡ arc_in self.entry.words.now self.entry.n (figures self.entry.n self.entry.m) j }
    {
        let k = 1 + self.n + 7 * j;
        let from = fraction::words::natural_of(self.figure(k));
        let to = fraction::words::natural_of(self.figure(k + 1));
        let cost = self.figure(k + 2);
        let lower = self.figure(k + 3);
        let upper = self.figure(k + 4);
        let a = self.figure(k + 5);
        let b = self.figure(k + 6);
        Arc {
            from,
            to,
            cost,
            lower,
            upper,
            a,
            b,
        }
    }

    // Question 3: whether each figure is a fraction in form or a permitted mark. Here and below by number: figures and arcs are read
    // out of the words at their numbers.
    fn is_in_form(self) -> bool
        ensures { result ≡ all (is_in_form self.entry.words.now self.entry.n (figures self.entry.n self.entry.m)) (figures self.entry.n self.entry.m) }
    {
        (0..self.count()).all(|k| permitted(self.n, k, self.figure(k)))
    }

    // Whether both ends of the arc of number j + 1 are right.
    fn has_ends_at(self, j: usize) -> bool
        requires { j < self.m }
        ensures { result ≡ has_ends self.entry.words.now self.entry.n (figures self.entry.n self.entry.m) j }
    {
        let k = 1 + self.n + 7 * j;
        is_end(self.n, self.figure(k)) && is_end(self.n, self.figure(k + 1))
    }

    // Question 4: whether all ends are whole and from 1 to n.
    fn has_ends(self) -> bool
        ensures { result ≡ all (has_ends self.entry.words.now self.entry.n (figures self.entry.n self.entry.m)) self.entry.m }
    {
        (0..self.m).all(|j| self.has_ends_at(j))
    }

    // Question 5: whether every a is nonzero, and b zero exactly where from = to.
    fn is_weighted(self) -> bool
        ensures { result ≡ all (is_weighted_at self.entry.words.now self.entry.n (figures self.entry.n self.entry.m)) self.entry.m }
    {
        (0..self.m).all(|j| is_weighted(self.arc(j)))
    }

    // The constant, and nodes 1 to n with their supplies, whatever the arcs.
    fn nodes(self) -> Nodes
        ensures { (arcs : List Arc) → joined result arcs ≡ upto (node_turn self.entry.words.now (figures self.entry.n self.entry.m)) self.entry.n (joined (nodes_of (empty_net self.entry.n self.entry.m (figure_at self.entry.words.now (figures self.entry.n self.entry.m) 0))) arcs) }
    {
        let mut at = no_nodes(self.n, self.m, self.figure(0));
        at.here[1..self.n + 1].fill(true);
        for (i, supply) in at.supply[1..self.n + 1].iter_mut().enumerate() {
            *supply = self.figure(i + 1);
        }
        at
    }

    // Arcs 1 to m, whatever the nodes.
    fn arcs(self) -> [Arc; ARC_PLACES]
        ensures { (nodes : Nodes) → joined nodes result ≡ upto (arc_turn self.entry.words.now self.entry.n (figures self.entry.n self.entry.m)) self.entry.m (joined nodes (no_arcs arc_places)) }
    {
        let z = network::no_arc();
        let mut at = [z; ARC_PLACES];
        for (j, t) in at[1..self.m + 1].iter_mut().enumerate() {
            *t = self.arc(j);
        }
        at
    }

    // The arcs into the lent list.
    fn load(self, arcs: &mut [Arc])
        ensures { arcs.new ≡ upto (load_turn self.entry.words.now self.entry.n (figures self.entry.n self.entry.m)) self.entry.m arcs.old }
    {
        // by number: records of the lent list are replaced one at a time (docs/DECISIONS.md,
        // "Forms by place"), and a number that it lacks is passed over
        for j in 0..self.m {
            network::list::replace(arcs, j + 1, self.arc(j));
        }
    }
}

// The first of the questions 2 to 5 that is answered by no.
pub fn ask(network: &[i32]) -> Result<(), Refusal>
    ensures { result ≡ first_no (questions network.now) }
{
    let record = Record::of(network).ok_or(Refusal::Sizes)?;
    Refusal::Form.unless(record.is_in_form())?;
    Refusal::Ends.unless(record.has_ends())?;
    Refusal::Multipliers.unless(record.is_weighted())
}

// The network of a record; one without nodes and arcs where question 2 is answered by no.
pub fn read(network: &[i32]) -> Net
    ensures { result ≡ read_of network.now }
{
    match Record::of(network) {
        Some(record) => network::join(record.nodes(), record.arcs()),
        None => network::empty_net(0, 0, Fraction::ZERO),
    }
}

// The constant and the nodes of a record's network.
pub fn read_beside(network: &[i32]) -> Nodes
    ensures { result ≡ nodes_of (read_of network.now) }
{
    match Record::of(network) {
        Some(record) => record.nodes(),
        None => no_nodes(0, 0, Fraction::ZERO),
    }
}

// The arcs of a network's record into the lent list, where question 2 is answered by yes.
pub fn load(arcs: &mut [Arc], network: &[i32])
    ensures { arcs.new ≡ loaded network.now arcs.old }
{
    if let Some(record) = Record::of(network) {
        record.load(arcs);
    }
}

// ---- writing

// An arc's seven figures, in their order.
fn figures_of(t: Arc) -> [Fraction; 7]
    ensures { result ≡ build 7 (role_figure t) }
{
    let from = fraction::words::whole(t.from);
    let to = fraction::words::whole(t.to);
    let cost = t.cost;
    let lower = t.lower;
    let upper = t.upper;
    let a = t.a;
    let b = t.b;
    [from, to, cost, lower, upper, a, b]
}

// The figures of arcs, behind the constant and n supplies.
fn put_arcs(arcs: &[Arc], n: usize, out: &mut [i32], dens: &mut [i32])
    requires { (n ≤ max_nodes) × (length arcs.now ≤ max_arcs) }
    ensures { (out.new ≡ arcs_put num_of arcs.now n out.old) × (dens.new ≡ arcs_put den_of arcs.now n dens.old) }
{
    for (j, t) in arcs.iter().enumerate() {
        crate::put_figures(&figures_of(*t), 1 + n + 7 * j, out, dens);
    }
}

// The figures' numerators, as many denominators, and zeros behind them.
fn write_figures(net: Net, out: &mut [i32])
    requires { (net.n ≤ max_nodes) × (net.m ≤ max_arcs) × (2 * network_figures ≤ length out.old) }
    ensures { out.new ≡ arrays_of (figure_of net) (figures net.n net.m) (length out.old) }
{
    let mut dens = [0i32; crate::NETWORK_FIGURES];
    crate::put_figure(net.constant, 0, out, &mut dens);
    crate::put_figures(&net.supply[1..net.n + 1], 1, out, &mut dens);
    put_arcs(&net.arcs[1..net.m + 1], net.n, out, &mut dens);
    let t = 1 + net.n + 7 * net.m;
    crate::write_denominators(&dens[..t], &mut out[t..]);
}

// A network's record, and zeros behind it; zeros alone where it has no room.
pub fn write_network(net: Net, out: &mut [i32])
    ensures { out.new ≡ network_of net (length out.old) }
{
    if crate::has_room(crate::NETWORK_WORDS, net.n, net.m, out.len()) {
        crate::write_sizes(net.n, net.m, out);
        write_figures(net, &mut out[2..]);
    } else {
        loops::clear(out);
    }
}
