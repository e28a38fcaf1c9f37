// The questions that a function puts to an arithmetic unit.
ghost use Rattle.std.specs.Prelude.{◌≡◌, Some};
ghost use Rattle.units.specs.Question.{code_of, Decodes, unknown_code_text};

use std::error::Error;
use std::fmt;

// In the order of their codes. Sine and cosine are of degrees, and the answer for atan is the finished one.
#[derive(Clone, Copy, Debug, PartialEq, Eq)]
pub enum Question {
    Root = 1,
    Power = 2,
    Ln = 3,
    Log = 4,
    Sine = 5,
    Cosine = 6,
    Atan = 7,
}

// A code that no question has.
#[derive(Clone, Copy, Debug, PartialEq, Eq)]
pub struct UnknownCode(pub u8);

impl From<Question> for u8 {
    ghost from_gives = { λ question code. code ≡ code_of question };

    fn from(question: Question) -> u8 {
        question as u8
    }
}

impl TryFrom<u8> for Question {
    type Error = UnknownCode;

    ghost try_from_gives = { Decodes };

    fn try_from(code: u8) -> Result<Question, UnknownCode> {
        match code {
            1 => Ok(Question::Root),
            2 => Ok(Question::Power),
            3 => Ok(Question::Ln),
            4 => Ok(Question::Log),
            5 => Ok(Question::Sine),
            6 => Ok(Question::Cosine),
            7 => Ok(Question::Atan),
            _ => Err(UnknownCode(code)),
        }
    }
}

impl fmt::Display for UnknownCode {
    ghost output = { λ unknown. Some (unknown_code_text unknown) };

    fn fmt<W: fmt::Write>(&self, f: &mut fmt::Formatter<W>) -> fmt::Result {
        write!(f, "no question has the code {}", self.0)
    }
}

impl Error for UnknownCode {}
