// The numbers that a word of a job writes.
ghost use Rattle.std.specs.Prelude.{◌≡◌, IfOk, Some, IfErr};
ghost use Rattle.std.specs.Str.Parse.{ParsesUnsigned};
ghost use Rattle.command.specs.Misread.{Names};
ghost use Rattle.numerals.specs.Numbers.{ReadsNumber};

use crate::misread::{LineError, Misread};

pub(crate) fn float(word: &str) -> Result<f32, LineError<'_>>
    ensures { IfOk result (λ x. ReadsNumber word.now (Some x)) }
{
    numerals::float(word).ok_or(LineError::new(Misread::NotANumber, word))
}

pub(crate) fn whole(word: &str) -> Result<usize, LineError<'_>>
    ensures reads { ParsesUnsigned 64 10 word.now result }
    ensures names { IfErr result (Names word.now) }
{
    word.parse()
        .map_err(|e| LineError::new(Misread::from(e), word))
}
