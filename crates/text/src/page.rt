// A lent slice that is printed into from its start on.
ghost use Rattle.std.specs.Prelude.{◌≡◌, [], ◌∷◌, ◌+◌, ◌*◌, length, replicate};
ghost use Rattle.text.specs.Line.{decimal, behind_spaces, line_of};
ghost use Rattle.text.specs.Page.{Prints};

// The slice, and the place behind what is printed.
#[derive(Drop)]
pub struct Page<'a> {
    pub out: &'a mut [u8],
    pub at: usize,
}

impl<'a> Page<'a> {
    // A slice, zeros throughout.
    pub fn new(out: &'a mut [u8]) -> Page<'a>
        ensures same { result.out.ghost_name ≡ out.entry.ghost_name }
        ensures zeros { result.out.now ≡ replicate (length out.old) 0 }
        ensures start { result.at ≡ 0 }
    {
        out.fill(0);
        Page { out, at: 0 }
    }

    // One byte. Outside the slice nothing is written, and the place stays.
    fn byte(&mut self, b: u8)
        ensures { Prints self.old (b ∷ []) 1 self.new }
    {
        if self.at < self.out.len() {
            self.out[self.at] = b;
            self.at += 1;
        }
    }

    pub fn bytes(&mut self, bytes: &[u8])
        ensures { Prints self.old bytes.now (length bytes.now) self.new }
    {
        for b in bytes {
            self.byte(*b);
        }
    }

    pub fn number(&mut self, z: i32)
        ensures { Prints self.old (decimal z) 11 self.new }
    {
        self.bytes(itoa::Buffer::new().format(z).as_bytes());
    }

    // Words with a space before each.
    fn behind_spaces(&mut self, words: &[i32])
        ensures { Prints self.old (behind_spaces words.now) (length words.now * 12) self.new }
    {
        for w in words {
            self.bytes(b" ");
            self.number(*w);
        }
    }

    // A line of words: one space between two words, and a line end behind the last.
    pub fn line(&mut self, words: &[i32])
        ensures { Prints self.old (line_of words.now) (length words.now * 12 + 1) self.new }
    {
        if let Some((first, rest)) = words.split_first() {
            self.number(*first);
            self.behind_spaces(rest);
        }
        self.bytes(b"\n");
    }
}
