// A pair's record: question 8, the pair that it holds, and the record of a pair.
ghost use Rattle.std.specs.Prelude.{◌≡◌, ◌+◌, ◌*◌, ◌≤◌, ◌<◌, eqb, pos, length, set, replicate};
ghost use Rattle.integer.specs.Whole.{eq_z};
ghost use Rattle.loops.specs.Loops.{all, build};
ghost use Rattle.fraction.specs.Words.{word};
ghost use Rattle.fraction.specs.Exact.{no_figure};
ghost use Rattle.network.specs.Limits.{max_nodes, max_arcs};
ghost use Rattle.records.specs.Arrays.{figure_at, arrays_of};
ghost use Rattle.records.specs.Limits.{pair_figures};
ghost use Rattle.records.specs.Pair.{is_fraction, is_pair, pair_of, pair_figure, pair_words};

use fraction::Fraction;
use network::pair::Pair;
use network::{MAX_ARCS, MAX_NODES};

// No struct as `net.rt` has one: n and m are the network's, which the words have to match, and not read from the words themselves.

// Whether the word at a place is this number.
pub fn is_size(pair: &[i32], at: usize, n: usize) -> bool
    ensures { result ≡ eq_z (word pair.now at) (pos n) }
{
    crate::size_at(pair, at, n) == Some(n)
}

// Whether so many words are two sizes and twice n + m figures.
fn is_long(len: usize, n: usize, m: usize) -> bool
    ensures { result ≡ eqb len (2 + 2 * (n + m)) }
{
    len as u128 == 2 + 2 * (n as u128 + m as u128)
}

// Whether all t figures are fractions in form, by number, as they are read out of the words.
fn all_fractions(pair: &[i32], t: usize) -> bool
    ensures { result ≡ all (is_fraction pair.now t) t }
{
    (0..t).all(|k| crate::figure_at(pair, t, k).is_proper())
}

// Question 8.
#[tactic(auto, unfolding(crate::specs::Pair::has_sizes, crate::specs::Pair::is_pair))]
pub fn is_pair(pair: &[i32], n: usize, m: usize) -> bool
    ensures { result ≡ is_pair pair.now n m }
{
    is_long(pair.len(), n, m)
        && is_size(pair, 0, n)
        && is_size(pair, 1, m)
        && all_fractions(pair, n + m)
}

// The figures of a record of t, from one on.
fn read_figures(words: &[i32], t: usize, from: usize, figures: &mut [Fraction])
    requires { from ≤ max_nodes }
    ensures { figures.new ≡ build (length figures.old) (λ k. figure_at words.now t (from + k)) }
{
    for (k, f) in figures.iter_mut().enumerate() {
        *f = crate::figure_at(words, t, from + k);
    }
}

// The pair of a record with these sizes; none where they are beyond the limits.
pub fn read_pair(words: &[i32], n: usize, m: usize) -> Pair
    ensures { result ≡ pair_of words.now n m }
{
    let mut pair = network::pair::no_pair();
    if n <= MAX_NODES && m <= MAX_ARCS {
        read_figures(words, n + m, 0, &mut pair.price[1..n + 1]);
        read_figures(words, n + m, n, &mut pair.flow[1..m + 1]);
    }
    pair
}

// ---- writing

// The figures' numerators, as many denominators, and zeros behind them.
fn write_figures(n: usize, m: usize, pair: Pair, out: &mut [i32])
    requires { (n ≤ max_nodes) × (m ≤ max_arcs) × (2 * pair_figures ≤ length out.old) }
    ensures { out.new ≡ arrays_of (pair_figure n pair) (n + m) (length out.old) }
{
    let mut dens = [0i32; crate::PAIR_FIGURES];
    crate::put_figures(&pair.price[1..n + 1], 0, out, &mut dens);
    crate::put_figures(&pair.flow[1..m + 1], n, out, &mut dens);
    let t = n + m;
    crate::write_denominators(&dens[..t], &mut out[t..]);
}

// A pair's record, and zeros behind it; zeros alone where it has no room.
pub fn write_pair(n: usize, m: usize, pair: Pair, out: &mut [i32])
    ensures { out.new ≡ pair_words n m pair (length out.old) }
{
    if crate::has_room(crate::PAIR_WORDS, n, m, out.len()) {
        crate::write_sizes(n, m, out);
        write_figures(n, m, pair, &mut out[2..]);
    } else {
        loops::clear(out);
    }
}
