// The shapes of loops, and the writing of words that the records share.
#![tactic(auto)]

ghost use Rattle.std.specs.Prelude.{◌≡◌, length, set};
ghost use Rattle.loops.specs.Loops.{zeros};

// Every word zero.
pub fn clear(s: &mut [i32])
    ensures { s.new ≡ zeros (length s.old) }
{
    s.fill(0);
}

// One word; none where the place is outside.
pub fn put(s: &mut [i32], at: usize, v: i32)
    ensures { s.new ≡ set s.old at v }
{
    // by index: of a write through `get_mut` a proof knows the length alone
    if at < s.len() {
        s[at] = v;
    }
}
