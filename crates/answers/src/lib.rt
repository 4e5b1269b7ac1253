// From the bytes of a text to the bytes of the answer that a program prints.
#![tactic(auto)]

ghost use Rattle.std.specs.Prelude.{ℕ, ℤ, List, [], ◌∷◌, ◌++◌, ◌+◌, ◌*◌, ◌≤◌, length};
ghost use Rattle.std.specs.Borrow.{Bor, MutBor};
ghost use Rattle.fraction.specs.Words.{word_of};
ghost use Rattle.records.specs.Limits.{network_room, stack_room};
ghost use Rattle.text.specs.Line.{line_of};
ghost use Rattle.text.specs.Page.{Prints};
ghost use Rattle.text.specs.Text.{words_of};
ghost use Rattle.answers.specs.Answers.{no_flow_bytes, refused_lines, part_line, record_lines, network_lines, stack_lines, end_lines, reduced_lines, reduced_text, on_words, reduce_text, no_bytes, Printed, most_of, most_reduced, NoFlowRight};

use records::refusal::Refusal;
use reduction::End;
use text::Page;

pub mod program;
pub mod restoring;

// The line of count words from a place on.
fn put_part(page: &mut Page, words: &[i32], from: usize, count: usize)
    ensures { Prints page.old (part_line words.now from count) (length words.now * 12 + 1) page.new }
{
    let rest = &words[from.min(words.len())..];
    page.line(&rest[..count.min(rest.len())]);
}

// The lines of a record: its sizes, and two parallel arrays of k words.
fn put_record(page: &mut Page, words: &[i32], sizes: usize, k: usize)
    requires { (sizes ≤ 2) × (k ≤ 17179869184) }
    ensures { Prints page.old (record_lines words.now sizes k) (most_of (length words.now)) page.new }
{
    put_part(page, words, 0, sizes);
    put_part(page, words, sizes, k);
    put_part(page, words, sizes + k, k);
}

fn put_network(page: &mut Page, words: &[i32])
    ensures { Prints page.old (network_lines words.now) (most_of (length words.now)) page.new }
{
    let n = records::number_at(words, 0);
    let m = records::number_at(words, 1);
    put_record(page, words, 2, 1 + n + 7 * m);
}

fn put_stack(page: &mut Page, words: &[i32])
    ensures { Prints page.old (stack_lines words.now) (most_of (length words.now)) page.new }
{
    let s = records::number_at(words, 0);
    put_record(page, words, 1, s);
}

fn put_refusal(page: &mut Page, refusal: Refusal)
    ensures { Prints page.old (refused_lines refusal) 33 page.new }
{
    page.bytes(b"refused ");
    page.line(&[fraction::words::word_of(refusal.number())]);
}

fn put_no_flow(page: &mut Page, rule: usize, place: usize)
    ensures { Prints page.old (no_flow_bytes ++ line_of (word_of rule ∷ word_of place ∷ [])) 33 page.new }
{
    page.bytes(b"no flow ");
    page.line(&[
        fraction::words::word_of(rule),
        fraction::words::word_of(place),
    ]);
}

fn put_reduced(page: &mut Page, net: &[i32], stack: &[i32])
    ensures { Prints page.old (end_lines End.Reduced net.now stack.now) (most_reduced (length net.now) (length stack.now)) page.new }
{
    page.bytes(b"reduced\n");
    put_network(page, net);
    put_stack(page, stack);
}

// An end, with the words of the reduced network and of the stack.
fn put_end(page: &mut Page, end: End, net: &[i32], stack: &[i32])
    ensures { Prints page.old (end_lines end net.now stack.now) (most_reduced (length net.now) (length stack.now)) page.new }
{
    match end {
        End::Reduced => put_reduced(page, net, stack),
        End::NoFlow { rule, place } => {
            put_no_flow(page, rule, place);
            put_stack(page, stack);
        },
    }
}

// An answer, with the same words.
fn put_answer(page: &mut Page, answer: Result<End, Refusal>, net: &[i32], stack: &[i32])
    ensures { Prints page.old (reduced_lines answer net.now stack.now) (most_reduced (length net.now) (length stack.now)) page.new }
{
    match answer {
        Ok(end) => put_end(page, end, net, stack),
        Err(refusal) => put_refusal(page, refusal),
    }
}

// The words of a text, reduced; the answer's bytes.
fn reduce_words(page: &mut Page, words: &[i32])
    ensures { Prints page.old (reduced_text words.now) (most_reduced network_room stack_room) page.new }
{
    let mut net = [0i32; records::NETWORK_WORDS];
    let mut stack = [0i32; records::STACK_WORDS];
    let mut scratch = [0i32; records::SCRATCH_WORDS];
    let answer = reduction::plain::reduce(words, &mut net, &mut stack, &mut scratch);
    put_answer(page, answer, &net, &stack);
}

// A text, by what is printed of its words; question 14 first.
fn put_text<F: Fn(&mut Page, &[i32])>(page: &mut Page, text: &[u8], put_words: F)
    requires { F.IsAlwaysCallable put_words }
    ensures { (f : List ℤ → List ℕ) (most : ℕ) → 33 ≤ most → ((p q : MutBor Page) (ws : Bor (List ℤ)) → F.post put_words p ws tt q → Prints p.now (f ws.now) most q.now) → Prints page.old (on_words f (words_of text.now)) most page.new }
{
    let mut words = [0i32; text::MAX_WORDS];
    match text::read_words(text, &mut words) {
        Some(n) => put_words(page, &words[..n]),
        None => put_refusal(page, Refusal::Text),
    }
}

// From the bytes of a text to the bytes of the reducing program's answer, and how many they are; what stands behind them is zero.
// They are never more than `most_reduced network_room stack_room`, which is below 65536.
pub fn reduce_text(text: &[u8], out: &mut [u8]) -> usize
    ensures { Printed (no_bytes (length out.old)) 0 (reduce_text text.now) (most_reduced network_room stack_room) result out.new × NoFlowRight text.now }
{
    let mut page = Page::new(out);
    put_text(&mut page, text, reduce_words);
    page.at
}
