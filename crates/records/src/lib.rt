// The records of 01, "Records": network, stack, pair and values, each with its questions, its reading and its writing.
#![tactic(auto)]

ghost use Rattle.std.specs.Prelude.{◌≡◌, ◌++◌, ◌+◌, ◌-◌, ◌≤◌, ◌<◌, length, set};
ghost use Rattle.loops.specs.Loops.{zeros};
ghost use Rattle.fraction.specs.Exact.{den_word};
ghost use Rattle.fraction.specs.Words.{word, natural_of};
ghost use Rattle.records.specs.Limits.{network_figures};
ghost use Rattle.records.specs.Arrays.{figure_at, has_room};
ghost use Rattle.records.specs.Network.{size_of};
ghost use Rattle.records.specs.internal.Put.{sized, nums_in, dens_in, put_from};

use fraction::{Fraction, words};
use network::{MAX_ARCS, MAX_NODES};

pub mod net;
pub mod pair;
pub mod refusal;
pub mod stack;
pub mod values;

// The most figures of a network's record.
pub const NETWORK_FIGURES: usize = 1 + MAX_NODES + 7 * MAX_ARCS;

// The most figures of a pair's record.
pub const PAIR_FIGURES: usize = MAX_NODES + MAX_ARCS;

// The least words of a lent network: two sizes, then two words for each figure.
pub const NETWORK_WORDS: usize = 2 + 2 * NETWORK_FIGURES;

// The least words of a lent pair: the same.
pub const PAIR_WORDS: usize = 2 + 2 * PAIR_FIGURES;

// The least words of a lent stack: the number of steps, then two words for each.
pub const STACK_WORDS: usize = 1 + 2 * network::MAX_STEPS;

// The least words of lent values: two values, of two words each.
pub const VALUE_WORDS: usize = 4;

// The least words of scratch: the log of the longest run.
pub const SCRATCH_WORDS: usize = step_log::LOG_WORDS;

// The word t + k places behind the two sizes; 0 outside.
fn word_behind(xs: &[i32], t: usize, k: usize) -> i32
    ensures { result ≡ word xs.now (2 + t + k) }
{
    if 2 <= xs.len() && t <= xs.len() - 2 && k < xs.len() - 2 - t {
        xs[2 + t + k]
    } else {
        0
    }
}

// Figure k of the t figures of a record that begins with two sizes.
pub fn figure_at(xs: &[i32], t: usize, k: usize) -> Fraction
    ensures { result ≡ figure_at xs.now t k }
{
    Fraction::from_words(word_behind(xs, 0, k), word_behind(xs, t, k))
}

// A word as a size, up to a limit; 0 outside.
pub fn size_at(xs: &[i32], at: usize, limit: usize) -> Option<usize>
    ensures { result ≡ size_of (word xs.now at) limit }
{
    usize::try_from(words::word_at(xs, at))
        .ok()
        .filter(|n| *n <= limit)
}

// A word as a number; 0 below zero and outside.
pub fn number_at(xs: &[i32], at: usize) -> usize
    ensures is { result ≡ natural_of (word xs.now at) }
    ensures fits { result ≤ 2147483647 }
{
    usize::try_from(words::word_at(xs, at)).unwrap_or(0)
}

// ---- writing: the numerators in place, the denominators beside them for behind. One trait for the figures of both records, each found by
// its place, made reducing a third slower. The place and the two slices travel apart, and no struct is plainer: the slices are the
// caller's, which reads and writes them again behind, and a struct of them would be two borrows more.

// Whether the sizes are within the limits, and there are at least so many words of room.
#[tactic(auto, unfolding(crate::specs::Arrays::has_room))]
pub(crate) fn has_room(least: usize, n: usize, m: usize, room: usize) -> bool
    ensures { result ≡ has_room least n m room }
{
    n <= MAX_NODES && m <= MAX_ARCS && least <= room
}

// The sizes, over the first two words.
pub(crate) fn write_sizes(n: usize, m: usize, out: &mut [i32])
    ensures { out.new ≡ sized n m out.old }
{
    loops::put(out, 0, words::word_of(n));
    loops::put(out, 1, words::word_of(m));
}

// Figure k: its numerator over word k of the output, its denominator over word k of those kept for behind.
pub(crate) fn put_figure(f: Fraction, k: usize, out: &mut [i32], dens: &mut [i32])
    ensures { (out.new ≡ set out.old k f.num) × (dens.new ≡ set dens.old k (den_word f.den)) }
{
    loops::put(out, k, f.num);
    loops::put(dens, k, f.den_word());
}

// Figures, from place k on.
pub(crate) fn put_figures(figures: &[Fraction], k: usize, out: &mut [i32], dens: &mut [i32])
    requires { k ≤ network_figures }
    ensures { (out.new ≡ put_from (nums_in figures.now) k (length figures.now) out.old) × (dens.new ≡ put_from (dens_in figures.now) k (length figures.now) dens.old) }
{
    for (i, f) in figures.iter().enumerate() {
        put_figure(*f, k + i, out, dens);
    }
}

// The denominators of figures, and zeros behind them: the rest of an output slice, behind the numerators.
pub(crate) fn write_denominators(dens: &[i32], rest: &mut [i32])
    requires { length dens.now ≤ length rest.old }
    ensures { rest.new ≡ dens.now ++ zeros (length rest.old - length dens.now) }
{
    let t = dens.len();
    rest[..t].copy_from_slice(dens);
    loops::clear(&mut rest[t..]);
}
