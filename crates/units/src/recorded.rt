// The unit that reads recorded answers, to run a job again as it ran before.
ghost use Rattle.std.specs.Prelude.{◌≡◌, true};
ghost use Rattle.units.specs.Recorded.{same_operand, fitting, recorded};

use crate::arithmetic::Arithmetic;
use crate::question::Question;
use std::num::f32_to_bits_with_nan;

// A question by its code, its operands and what was answered. Where a question has one operand, y is +0.
// The code stays a number: a record of a code that no question has is taken too, and then never fits.
#[derive(Clone, Copy, Debug)]
pub struct Answered {
    pub code: u8,
    pub x: f32,
    pub y: f32,
    pub answer: f32,
}

#[derive(Clone, Copy, Debug)]
pub struct Recorded<'a> {
    items: &'a [Answered],
}

impl<'a> Recorded<'a> {
    pub fn new(items: &'a [Answered]) -> Recorded<'a>
        ensures { result.items.now ≡ items.now }
    {
        Recorded { items }
    }
}

impl Arithmetic for Recorded<'_> {
    ghost meaning = { λ u. recorded u.items.now };

    fn answer(&mut self, question: Question, x: f32, y: f32) -> f32 {
        first_answer(self.items, question, x, y)
    }
}

// The answer of the first record that fits, or NaN: a unit refuses nothing, and its meaning fixes this value.
fn first_answer(items: &[Answered], question: Question, x: f32, y: f32) -> f32
    ensures { result ≡ recorded items.now question x y }
{
    items
        .iter()
        .find(|item| item.fits(question, x, y))
        .map_or(f32::NAN, |item| item.answer)
}

impl Answered {
    fn fits(&self, question: Question, x: f32, y: f32) -> bool
        ensures { result ≡ fitting question x y self.now }
    {
        self.code == u8::from(question) && same_operand(self.x, x) && same_operand(self.y, y)
    }
}

// The same bits, or NaN for NaN. By hand, since == on floats takes the zeros for one, and no NaN for another.
fn same_operand(x: f32, y: f32) -> bool
    ensures test { result ≡ same_operand x y }
    ensures same { (result ≡ true → x ≡ y) × (x ≡ y → result ≡ true) }
{
    f32_to_bits_with_nan(x) == f32_to_bits_with_nan(y)
}
