// Values as words.
ghost use Rattle.std.specs.Prelude.{◌≡◌};
ghost use Rattle.records.specs.Values.{with_value};

use fraction::Fraction;

// The two words of a value, at a place of a slice.
pub fn write(values: &mut [i32], at: usize, f: Fraction)
    ensures { values.new ≡ with_value values.old at f }
{
    if at < values.len() {
        loops::put(values, at, f.num);
        loops::put(values, at + 1, f.den_word());
    }
}
