// The questions before work (01, "Questions before work"), each by what is refused where it is answered by no.
ghost use Rattle.std.specs.Prelude.{◌≡◌, cond, Ok, Err};
ghost use Rattle.records.specs.Questions.{number_of};

#[derive(Clone, Copy, Debug, PartialEq, Eq)]
pub enum Refusal {
    Room = 1,
    Sizes = 2,
    Form = 3,
    Ends = 4,
    Multipliers = 5,
    NoFlow = 6,
    Stack = 7,
    Pair = 8,
    Width = 9,
    Balance = 10,
    Bounds = 11,
    Prices = 12,
    WayBack = 13,
    Text = 14,
}

impl Refusal {
    // The question's number.
    pub fn number(self) -> usize
        ensures { result ≡ number_of self }
    {
        self as usize
    }

    // Refuses, unless the question is answered by yes.
    pub fn unless(self, yes: bool) -> Result<(), Refusal>
        ensures { result ≡ cond yes (Ok tt) (Err self) }
    {
        yes.then_some(()).ok_or(self)
    }
}
