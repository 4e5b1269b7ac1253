// From the bytes of a restoring text to the bytes of the answer.
ghost use Rattle.std.specs.Prelude.{◌≡◌, Ok, Err, MatchResult, ◌+◌, length};
ghost use Rattle.records.specs.Limits.{pair_room, value_room};
ghost use Rattle.text.specs.Page.{Prints};
ghost use Rattle.answers.specs.Answers.{no_bytes, Printed, most_of};
ghost use Rattle.answers.specs.Restoring.{words_in, split_of, pair_lines, value_lines, restored_lines, restored_text, on_split, restore_text, most_restored, RestoredRight};

use records::refusal::Refusal;
use text::Page;

// The words of a text: those of the network, of the stack and of the pair.
#[derive(Clone, Copy)]
pub struct Parts<'a> {
    network: &'a [i32],
    stack: &'a [i32],
    pair: &'a [i32],
}

// The words of a text, split by their sizes.
#[tactic(auto, unfolding(crate::specs::Restoring::split_of))]
fn split(words: &[i32]) -> Result<Parts<'_>, Refusal>
    ensures { MatchResult result (λ p. split_of words.now ≡ Ok (words_in p)) (λ q. split_of words.now ≡ Err q) }
{
    let n = records::size_at(words, 0, network::MAX_NODES).ok_or(Refusal::Sizes)?;
    let m = records::size_at(words, 1, network::MAX_ARCS).ok_or(Refusal::Sizes)?;
    let end = 2 + 2 * (1 + n + 7 * m);
    let (network, behind) = words.split_at_checked(end).ok_or(Refusal::Sizes)?;
    let s = records::size_at(behind, 0, network::MAX_STEPS).ok_or(Refusal::Stack)?;
    let (stack, pair) = behind.split_at_checked(1 + 2 * s).ok_or(Refusal::Stack)?;
    Ok(Parts {
        network,
        stack,
        pair,
    })
}

fn put_pair(page: &mut Page, words: &[i32])
    ensures { Prints page.old (pair_lines words.now) (most_of (length words.now)) page.new }
{
    let n = records::number_at(words, 0);
    let m = records::number_at(words, 1);
    crate::put_record(page, words, 2, n + m);
}

fn put_values(page: &mut Page, words: &[i32])
    ensures { Prints page.old (value_lines words.now) (most_of (length words.now)) page.new }
{
    crate::put_part(page, words, 0, 2);
    crate::put_part(page, words, 2, 2);
}

fn put_restored(page: &mut Page, pair: &[i32], values: &[i32])
    ensures { Prints page.old (restored_lines (Ok tt) pair.now values.now) (most_restored (length pair.now) (length values.now)) page.new }
{
    page.bytes(b"restored\n");
    put_pair(page, pair);
    put_values(page, values);
}

// An answer, with the words of the restored pair and of the values.
fn put_answer(page: &mut Page, answer: Result<(), Refusal>, pair: &[i32], values: &[i32])
    ensures { Prints page.old (restored_lines answer pair.now values.now) (most_restored (length pair.now) (length values.now)) page.new }
{
    match answer {
        Ok(()) => put_restored(page, pair, values),
        Err(refusal) => crate::put_refusal(page, refusal),
    }
}

// The parts of a text, restored; the answer's bytes.
fn restore_parts(page: &mut Page, parts: Parts)
    ensures { Prints page.old (on_split (Ok (words_in parts.entry))) (most_restored pair_room value_room) page.new }
{
    let mut back = [0i32; records::PAIR_WORDS];
    let mut values = [0i32; records::VALUE_WORDS];
    let mut scratch = [0i32; records::SCRATCH_WORDS];
    let answer = restoration::plain::restore(
        parts.network,
        parts.stack,
        parts.pair,
        &mut back,
        &mut values,
        &mut scratch,
    );
    put_answer(page, answer, &back, &values);
}

// The words of a text, split and restored.
fn restore_words(page: &mut Page, words: &[i32])
    ensures { Prints page.old (on_split (split_of words.now)) (most_restored pair_room value_room) page.new }
{
    match split(words) {
        Ok(parts) => restore_parts(page, parts),
        Err(refusal) => crate::put_refusal(page, refusal),
    }
}

// From the bytes of a text to the bytes of the restoring program's answer, and how many they are; what stands behind them is zero.
// They are never more than `most_restored pair_room value_room`, which is below 65536.
pub fn restore_text(text: &[u8], out: &mut [u8]) -> usize
    ensures { Printed (no_bytes (length out.old)) 0 (restore_text text.now) (most_restored pair_room value_room) result out.new × RestoredRight text.now }
{
    let mut page = Page::new(out);
    crate::put_text(&mut page, text, restore_words);
    page.at
}
