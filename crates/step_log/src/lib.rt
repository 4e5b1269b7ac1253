// The log: the steps of a run in the lent words, as many words for each.
#![tactic(auto)]

ghost use Rattle.std.specs.Prelude.{◌≡◌, ◌+◌, ◌*◌, ◌≤◌, length};
ghost use Rattle.fraction.specs.Words.{whole_of};
ghost use Rattle.step_log.specs.Log.{step_words, log_words, update_figures, number_figures, with_figure, with_figures, figures_of, with_step, start_of, figure_in, number_in, update_in, numbers_in, rule_in, place_in, old_in};

use fraction::Fraction;
use network::{Arc, ArcUpdate, MAX_STEPS};
use step::{Numbers, Old, Step};

// The words of a step: 40 figures of two words each.
pub const STEP_WORDS: usize = 80;

// The words of the steps of the longest run.
pub const LOG_WORDS: usize = STEP_WORDS * MAX_STEPS;

// ---- written: each figure at its place, as `Log` has it. A slice behind every figure would hide the places by which steps are read.
// How far each function reaches differs from one to the next.

#[tactic(auto, unfolding(crate::specs::Log::with_figure))]
fn put_figure(words: &mut [i32], at: usize, f: Fraction)
    requires { at + 2 ≤ length words.old }
    ensures { words.new ≡ with_figure words.old at f }
{
    words[at] = f.num;
    words[at + 1] = f.den_word();
}

// A whole number, over 1.
#[tactic(auto, unfolding(crate::specs::Log::with_figure, fraction::specs::Exact::den_word))]
fn put_number(words: &mut [i32], at: usize, k: usize)
    requires { at + 2 ≤ length words.old }
    ensures { words.new ≡ with_figure words.old at (whole_of k) }
{
    words[at] = fraction::words::word_of(k);
    words[at + 1] = 1;
}

// An old arc: its number and its seven figures.
fn put_update(words: &mut [i32], at: usize, u: ArcUpdate)
    requires { at + 16 ≤ length words.old }
    ensures { words.new ≡ with_figures words.old at (update_figures u) }
{
    let t = u.arc;
    put_number(words, at, u.number);
    put_number(words, at + 2, t.from);
    put_number(words, at + 4, t.to);
    put_figure(words, at + 6, t.cost);
    put_figure(words, at + 8, t.lower);
    put_figure(words, at + 10, t.upper);
    put_figure(words, at + 12, t.a);
    put_figure(words, at + 14, t.b);
}

fn put_numbers(words: &mut [i32], at: usize, new: Numbers)
    requires { at + 8 ≤ length words.old }
    ensures { words.new ≡ with_figures words.old at (number_figures new) }
{
    put_number(words, at, new.first);
    put_number(words, at + 2, new.second);
    put_number(words, at + 4, new.third);
    put_number(words, at + 6, new.fourth);
}

// The words of a step.
fn put_old(words: &mut [i32], at: usize, rule: usize, place: usize, old: Old)
    requires { at + step_words ≤ length words.old }
    ensures { words.new ≡ with_figures words.old at (figures_of rule place old) }
{
    put_number(words, at, rule);
    put_number(words, at + 2, place);
    put_number(words, at + 4, old.node);
    put_figure(words, at + 6, old.supply);
    put_update(words, at + 8, old.one);
    put_update(words, at + 24, old.two);
    put_update(words, at + 40, old.three);
    put_update(words, at + 56, old.four);
    put_numbers(words, at + 72, old.new);
}

// Step k, from 0; nothing is written where there is no such step, or no room for it.
#[tactic(auto, unfolding(crate::specs::Log::with_step))]
pub fn store(words: &mut [i32], k: usize, s: Step)
    ensures { words.new ≡ with_step words.old k s }
{
    if k < MAX_STEPS && STEP_WORDS * k + STEP_WORDS <= words.len() {
        put_old(words, STEP_WORDS * k, s.rule, s.place, s.change.old);
    }
}

// ---- read: a bound on the place is asked for so that it cannot overflow; any word outside is 0

#[tactic(auto, unfolding(crate::specs::Log::figure_in))]
fn figure_in(words: &[i32], at: usize) -> Fraction
    requires { at ≤ 3 * log_words }
    ensures { result ≡ figure_in words.now at }
{
    let num = fraction::words::word_at(words, at);
    Fraction::from_words(num, fraction::words::word_at(words, at + 1))
}

fn number_in(words: &[i32], at: usize) -> usize
    requires { at ≤ 3 * log_words }
    ensures { result ≡ number_in words.now at }
{
    fraction::words::natural_of(figure_in(words, at))
}

#[tactic(auto, unfolding(crate::specs::Log::update_in))]
fn update_in(words: &[i32], at: usize) -> ArcUpdate
    requires { at ≤ 2 * log_words }
    ensures { result ≡ update_in words.now at }
{
    ArcUpdate {
        number: number_in(words, at),
        arc: Arc {
            from: number_in(words, at + 2),
            to: number_in(words, at + 4),
            cost: figure_in(words, at + 6),
            lower: figure_in(words, at + 8),
            upper: figure_in(words, at + 10),
            a: figure_in(words, at + 12),
            b: figure_in(words, at + 14),
        },
    }
}

#[tactic(auto, unfolding(crate::specs::Log::numbers_in))]
fn numbers_in(words: &[i32], at: usize) -> Numbers
    requires { at ≤ 2 * log_words }
    ensures { result ≡ numbers_in words.now at }
{
    Numbers {
        first: number_in(words, at),
        second: number_in(words, at + 2),
        third: number_in(words, at + 4),
        fourth: number_in(words, at + 6),
    }
}

// Where step k stands; behind the last where there is no such step.
fn start(k: usize) -> usize
    ensures { (result ≡ start_of k) × (result ≤ log_words) }
{
    if k < MAX_STEPS {
        STEP_WORDS * k
    } else {
        LOG_WORDS
    }
}

// The rule of step k, a number as in `step::Step`.
#[tactic(auto, unfolding(crate::specs::Log::rule_in))]
pub fn rule_at(words: &[i32], k: usize) -> usize
    ensures { result ≡ rule_in words.now k }
{
    number_in(words, start(k))
}

// The place of step k.
#[tactic(auto, unfolding(crate::specs::Log::place_in))]
pub fn place_at(words: &[i32], k: usize) -> usize
    ensures { result ≡ place_in words.now k }
{
    number_in(words, start(k) + 2)
}

// What the way back needs of step k.
#[tactic(auto, unfolding(crate::specs::Log::old_in, crate::specs::Log::old_from))]
pub fn old_at(words: &[i32], k: usize) -> Old
    ensures { result ≡ old_in words.now k }
{
    let at = start(k);
    Old {
        node: number_in(words, at + 4),
        supply: figure_in(words, at + 6),
        one: update_in(words, at + 8),
        two: update_in(words, at + 24),
        three: update_in(words, at + 40),
        four: update_in(words, at + 56),
        new: numbers_in(words, at + 72),
    }
}
