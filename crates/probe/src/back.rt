// The way back over one step. Behind the words of trial.rt comes the record of a pair of 6 prices and 9 flows. The first
// word is 0 where the rule gives no step at that place, 1 where a figure of the way back does not fit, 2 where all fit,
// 3 where the network's record is refused; then, where all fit, come the numerators of the prices and flows before the
// step, and their denominators.
use crate::{ASKED_WORDS, TOLD_WORDS};
use network::pair::Pair;
use step::Change;

const PRICES: usize = 6;

const FLOWS: usize = 9;

const FIGURES: usize = PRICES + FLOWS;

fn put_pair(told: &mut [i32; TOLD_WORDS], pair: Pair) {
    told[0] = 2;
    let prices = (1..=PRICES).map(|i| network::pair::price_at(pair, i));
    let flows = (1..=FLOWS).map(|j| network::pair::flow_at(pair, j));
    let (nums, dens) = told[1..].split_at_mut(FIGURES);
    for ((num, den), f) in nums.iter_mut().zip(dens).zip(prices.chain(flows)) {
        *num = f.num;
        *den = f.den_word();
    }
}

fn undo(told: &mut [i32; TOLD_WORDS], k: usize, change: Change, pair: Pair) {
    match rules::undo(k, change.old, pair) {
        Ok(r) => put_pair(told, step::restore(pair, r)),
        Err(_) => told[0] = 1,
    }
}

pub(crate) fn answer(asked: &[i32; ASKED_WORDS], told: &mut [i32; TOLD_WORDS]) {
    let pair = records::pair::read_pair(crate::words::pair(asked), PRICES, FLOWS);
    match crate::trial::try_rule(asked) {
        Ok(Ok(change)) => undo(told, crate::words::number(asked[1]), change, pair),
        Ok(Err(_)) => told[0] = 0,
        Err(_) => told[0] = 3,
    }
}
