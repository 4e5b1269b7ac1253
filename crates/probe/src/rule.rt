// One rule at one place, as in trial.rt. The first word is 0 where the rule passes, 1 for no flow, 2 for a step, 3 where
// the record is refused; then comes what a step changes. That is four arcs (a number and seven figures, the ends as one
// word each), two supplies (a node and a figure), the node dropped, and the constant. All of an arc or a supply is 0 where
// nothing is put, and the figures of an arc dropped are 0.
use crate::{ASKED_WORDS, TOLD_WORDS};
use fraction::words::word_of;
use network::{ArcUpdate, Edit, SupplyUpdate};
use step::Halt;

fn arc_words(p: ArcUpdate) -> [i32; 13] {
    if p.number == 0 {
        return [0; 13];
    }
    let t = p.arc;
    [
        word_of(p.number),
        word_of(t.from),
        word_of(t.to),
        t.cost.num,
        t.cost.den_word(),
        t.lower.num,
        t.lower.den_word(),
        t.upper.num,
        t.upper.den_word(),
        t.a.num,
        t.a.den_word(),
        t.b.num,
        t.b.den_word(),
    ]
}

fn supply_words(s: SupplyUpdate) -> [i32; 3] {
    if s.node == 0 {
        return [0; 3];
    }
    [word_of(s.node), s.supply.num, s.supply.den_word()]
}

fn put_edit(told: &mut [i32; TOLD_WORDS], c: Edit) {
    told[0] = 2;
    told[1..14].copy_from_slice(&arc_words(c.one));
    told[14..27].copy_from_slice(&arc_words(c.two));
    told[27..40].copy_from_slice(&arc_words(c.three));
    told[40..53].copy_from_slice(&arc_words(c.four));
    told[53..56].copy_from_slice(&supply_words(c.left));
    told[56..59].copy_from_slice(&supply_words(c.right));
    told[59] = word_of(c.gone);
    told[60] = c.constant.num;
    told[61] = c.constant.den_word();
}

pub(crate) fn answer(asked: &[i32; ASKED_WORDS], told: &mut [i32; TOLD_WORDS]) {
    match crate::trial::try_rule(asked) {
        Ok(Ok(change)) => put_edit(told, change.edit),
        Ok(Err(Halt::Passes)) => told[0] = 0,
        Ok(Err(Halt::NoFlow)) => told[0] = 1,
        Err(_) => told[0] = 3,
    }
}
