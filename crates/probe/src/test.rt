// The optimality test of one pair on a network. Behind the first word come the length of a network's record, the length
// of a pair's record, how many words are lent for the value (at most 4), 160 words that begin with the network's record
// and 40 that begin with the pair's. Five words go out: the number of the question that is answered by no, 0 where the
// pair is passed, -1 where a length is too large (one below zero counts as 0); then the four words for the value. They
// are 7 before the test, and of them those lent come first.
use crate::words::number;
use crate::{ASKED_WORDS, TOLD_WORDS};
use records::refusal::Refusal;

// What the test answers; none where a length is too large.
fn test(asked: &[i32; ASKED_WORDS], values: &mut [i32]) -> Option<Result<(), Refusal>> {
    let network = crate::words::network(asked).get(..number(asked[1]))?;
    let pair = crate::words::pair(asked).get(..number(asked[2]))?;
    let lent = values.get_mut(..number(asked[3]))?;
    Some(optimality::test(network, pair, lent))
}

pub(crate) fn answer(asked: &[i32; ASKED_WORDS], told: &mut [i32; TOLD_WORDS]) {
    let mut values = [7i32; 4];
    told[0] = match test(asked, &mut values) {
        None => -1,
        Some(Ok(())) => 0,
        Some(Err(refusal)) => fraction::words::word_of(refusal.number()),
    };
    told[1..5].copy_from_slice(&values);
}
