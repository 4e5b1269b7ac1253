// One operation on fractions. Behind the first word come the operation's number and two figures, each a numerator and
// a denominator. Three words go out: 1 and the fraction, 0 where it does not fit, 2 where a figure is not in form; for
// the order 1 where the first figure is less, otherwise 0.
use crate::{ASKED_WORDS, TOLD_WORDS};
use fraction::{Fraction, Worked};

fn status(number: i32) -> [i32; 3] {
    [number, 0, 0]
}

fn figure(x: Fraction) -> [i32; 3] {
    [1, x.num, x.den_word()]
}

fn worked(w: Worked) -> [i32; 3] {
    match w {
        Ok(x) => figure(x),
        Err(_) => status(0),
    }
}

fn has_order(x: Fraction) -> bool {
    x.is_proper() || x.is_no_lower() || x.is_no_upper()
}

// Operation 0 to 3 is arithmetic, 4 the order, 5 to 7 a figure read, by 6 and 7 also the mark of no bound, and 8 the negation.
fn answered(number: i32, x: Fraction, y: Fraction) -> [i32; 3] {
    let proper = x.is_proper();
    let both = proper && y.is_proper();
    match number {
        0 if both => worked(x.sum(y)),
        1 if both => worked(x.difference(y)),
        2 if both => worked(x.product(y)),
        3 if both => worked(x.quotient(y)),
        4 if has_order(x) && has_order(y) => status(i32::from(x.less(y))),
        5 if proper => figure(x),
        6 if proper || x.is_no_lower() => figure(x),
        7 if proper || x.is_no_upper() => figure(x),
        8 if proper => worked(x.negation()),
        _ => status(2),
    }
}

pub(crate) fn answer(asked: &[i32; ASKED_WORDS], told: &mut [i32; TOLD_WORDS]) {
    let x = Fraction::from_words(asked[2], asked[3]);
    let y = Fraction::from_words(asked[4], asked[5]);
    told[..3].copy_from_slice(&answered(asked[1], x, y));
}
