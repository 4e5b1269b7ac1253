// The stack's record, word by word, from the log; and question 7, whether the stack offered is that one.
ghost use Rattle.std.specs.Prelude.{◌≡◌};
ghost use Rattle.integer.specs.Whole.{eq_z};
ghost use Rattle.records.specs.Logged.{stack_word, with_stack, is_stack_of};

use network::MAX_STEPS;

// The log and the number of steps travel apart: the log is the entry's scratch, and s the run's count (`search::Ran`).

// Word k of the record of s steps.
pub fn word_at(log: &[i32], s: usize, k: usize) -> i32
    ensures { result ≡ stack_word log.now s k }
{
    if k == 0 {
        return fraction::words::word_of(s);
    }
    if k <= s {
        return fraction::words::word_of(step_log::rule_at(log, k - 1));
    }
    fraction::words::word_of(step_log::place_at(log, k - 1 - s))
}

// The record of s steps, over the first words of a slice; nothing is written where there are more steps than a run has, or no room.
pub fn write(log: &[i32], s: usize, out: &mut [i32])
    ensures { out.new ≡ with_stack log.now s out.old }
{
    if s <= MAX_STEPS && crate::STACK_WORDS <= out.len() {
        for (k, word) in out[..1 + 2 * s].iter_mut().enumerate() {
            *word = word_at(log, s, k);
        }
    }
}

// Whether a word is word k of that record.
fn is_word(log: &[i32], s: usize, k: usize, v: i32) -> bool
    ensures { result ≡ eq_z v (stack_word log.now s k) }
{
    v == word_at(log, s, k)
}

// Whether the words are the record of the s steps in the log.
pub fn is_stack(log: &[i32], s: usize, stack: &[i32]) -> bool
    ensures { result ≡ is_stack_of log.now s stack.now }
{
    s <= MAX_STEPS
        && stack.len() == 1 + 2 * s
        && stack
            .iter()
            .enumerate()
            .all(|(k, v)| is_word(log, s, k, *v))
}
