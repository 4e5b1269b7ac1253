// Words in bytes, the lowest byte first.
use crate::{ASKED_WORDS, TOLD_WORDS};

// The words of a question.
pub(crate) fn read(record: &[u8]) -> [i32; ASKED_WORDS] {
    let mut asked = [0i32; ASKED_WORDS];
    let (words, _) = record.as_chunks::<4>();
    for (word, bytes) in asked.iter_mut().zip(words) {
        *word = i32::from_le_bytes(*bytes);
    }
    asked
}

// The bytes of an answer.
pub(crate) fn write(told: [i32; TOLD_WORDS], record: &mut [u8]) {
    let (words, _) = record.as_chunks_mut::<4>();
    for (bytes, word) in words.iter_mut().zip(told) {
        *bytes = word.to_le_bytes();
    }
}

// A word as a number; 0 below zero.
pub(crate) fn number(v: i32) -> usize {
    usize::try_from(v).unwrap_or(0)
}

// The 160 words that begin with a network's record.
pub(crate) fn network(asked: &[i32; ASKED_WORDS]) -> &[i32] {
    &asked[4..164]
}

// The 40 words that begin with a pair's record.
pub(crate) fn pair(asked: &[i32; ASKED_WORDS]) -> &[i32] {
    &asked[164..]
}
