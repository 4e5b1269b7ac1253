#![tactic(auto)]

ghost use Rattle.std.specs.Prelude.{◌≡◌, ◌≤◌, ◌<◌, ◌^◌, length, replicate, pos};
ghost use Rattle.text.specs.Text.{separator, limit, with_sign, Read};
ghost use Rattle.text.specs.Pass.{after_value, after_digit, after_minus, after_separator, after, ended_at, Sound, Stored, closed, Passed};

mod page;

pub use page::Page;

// The most bytes of a text.
pub const MAX_BYTES: usize = 24576;

// The most words of a text: at least one byte stands between two.
pub const MAX_WORDS: usize = MAX_BYTES / 2;

// Where a pass through a text stands: between words, behind a minus sign, behind digits (whether a minus sign is before them, and their
// value), or behind something that is refused.
#[derive(Clone, Copy)]
enum State {
    Between,
    Minus,
    Digits(bool, u64),
    Bad,
}

// A space or a line end.
#[tactic(auto, unfolding(crate::specs::Text::separator))]
fn is_separator(b: u8) -> bool
    ensures { result ≡ separator b }
{
    matches!(b, b' ' | b'\n' | b'\r')
}

// The largest value of a word.
fn largest(minus: bool) -> u64
    ensures { result ≡ limit minus }
{
    if minus {
        i32::MIN.unsigned_abs() as u64
    } else {
        i32::MAX as u64
    }
}

// The states behind a digit, a minus sign and a separator.
fn after_value(minus: bool, value: u64) -> State
    ensures { result ≡ after_value minus value }
{
    if value <= largest(minus) {
        State::Digits(minus, value)
    } else {
        State::Bad
    }
}

fn after_digit(state: State, d: u64) -> State
    requires { (Sound state) × (d < 256) }
    ensures { result ≡ after_digit state d }
{
    match state {
        State::Between => after_value(false, d),
        State::Minus => after_value(true, d),
        State::Digits(minus, value) => after_value(minus, value * 10 + d),
        State::Bad => State::Bad,
    }
}

fn after_minus(state: State) -> State
    ensures { result ≡ after_minus state }
{
    match state {
        State::Between => State::Minus,
        _ => State::Bad,
    }
}

fn after_separator(state: State) -> State
    ensures { result ≡ after_separator state }
{
    match state {
        State::Between | State::Digits(_, _) => State::Between,
        State::Minus => State::Bad, // a minus sign alone is no word
        State::Bad => State::Bad,
    }
}

// The state behind one more byte.
#[tactic(auto, unfolding(crate::specs::Pass::after, crate::specs::Text::separator, crate::specs::Text::digit))]
fn step(state: State, b: u8) -> State
    requires { Sound state }
    ensures { result ≡ after state b }
{
    match b {
        b' ' | b'\n' | b'\r' => after_separator(state),
        b'0'..=b'9' => after_digit(state, (b - b'0') as u64),
        b'-' => after_minus(state),
        _ => State::Bad,
    }
}

// A value with its sign.
fn signed_word(minus: bool, value: u64) -> i32
    requires { value ≤ limit minus }
    ensures { result ≡ with_sign minus value }
{
    let z = value as i64;
    (if minus { -z } else { z }) as i32
}

// The word that ends behind a state, stored where there is room for it; the number of words with it.
#[tactic(auto, unfolding(crate::specs::Placed::placed))]
fn end_word(state: State, words: &mut [i32], count: usize) -> usize
    requires { (Sound state) × (count < 2 ^ 63) }
    ensures { Stored words.old count (ended_at state) result words.new }
{
    match state {
        State::Digits(minus, value) => {
            loops::put(words, count, signed_word(minus, value));
            count + 1
        },
        _ => count,
    }
}

// How many words there are, n, unless the text is refused.
fn close(state: State, n: usize) -> Option<usize>
    ensures { result ≡ closed state n }
{
    match state {
        State::Between => Some(n),
        _ => None,
    }
}

// All bytes of a text; its end ends a word too.
fn pass(text: &[u8], words: &mut [i32]) -> Option<usize>
    ensures { Passed text.now words.old result words.new }
{
    let mut state = State::Between;
    let mut count = 0;
    for b in text {
        if is_separator(*b) {
            count = end_word(state, words, count);
        }
        state = step(state, *b);
    }
    let n = end_word(state, words, count);
    close(after_separator(state), n)
}

fn refuse(words: &mut [i32]) -> Option<usize>
    ensures { (result ≡ None) × (words.new ≡ replicate (length words.old) (pos 0)) }
{
    loops::clear(words);
    None
}

// The words of a text, at the start of a slice, and zeros behind them: how many there are. Zeros alone, and no number, where the text is
// refused or has more words than there is room for.
pub fn read_words(text: &[u8], words: &mut [i32]) -> Option<usize>
    ensures { Read text.now (length words.old) result words.new }
{
    if text.len() > MAX_BYTES {
        return refuse(words);
    }
    loops::clear(words);
    match pass(text, words) {
        Some(n) if n <= words.len() => Some(n),
        _ => refuse(words),
    }
}
