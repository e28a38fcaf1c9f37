// What answers roots, powers, logarithms and angles for a function.
ghost use Rattle.std.specs.Prelude.{◌≡◌, Float};
ghost use Rattle.units.specs.declared.question.Question.{Question};

use crate::question::Question;

// A unit's meaning is one fixed f32 for each question and operands; all NaNs count as one. Nothing is refused.
pub trait Arithmetic {
    ghost meaning: { Self → Question → Float → Float → Float };

    // Where a question has one operand, y is +0: recorded answers compare y too, so the meaning is of three values.
    fn answer(&mut self, question: Question, x: f32, y: f32) -> f32
        ensures value { result ≡ meaning self.old question x y }
        ensures keeps { meaning self.new ≡ meaning self.old };
}
