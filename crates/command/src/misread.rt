// What is wrong with a line, and at which word.
ghost use Rattle.std.specs.Prelude.{◌≡◌, alloc_error};
ghost use Rattle.command.specs.declared.misread.LineError.TheVariants.{AtWord, OutOfMemory};

use std::alloc::{AllocError, AllocFailed};
use std::error::Error;
use std::fmt;
use std::num::{IntErrorKind, ParseIntError};

#[derive(Clone, Copy, PartialEq, Eq, Debug)]
pub enum Misread {
    UnknownCommand,
    UnknownArithmetic,
    UnknownField,
    FieldTwice,
    FieldMissing,
    TooFewWords,
    NumberMissing,
    TooManyWords,
    NotANumber,
    NotWhole,
    TooLarge,
    NotACode,
    OddCount,
}

// What is wrong with a word that is no whole number.
impl From<ParseIntError> for Misread {
    ghost use Rattle.std.specs.Str.Parse.{error_kind};
    ghost use Rattle.command.specs.Misread.{not_whole};

    ghost from_gives = { λ e m. m ≡ not_whole (error_kind e) };

    fn from(e: ParseIntError) -> Misread {
        match e.kind() {
            IntErrorKind::PosOverflow => Misread::TooLarge,
            _ => Misread::NotWhole,
        }
    }
}

#[derive(Clone, Copy, Debug)]
pub enum LineError<'a> {
    // The word is a part of the line, or the name of a field or command.
    AtWord { what: Misread, word: &'a str },
    OutOfMemory(AllocError),
}

impl<'a> LineError<'a> {
    pub(crate) fn new(what: Misread, word: &'a str) -> LineError<'a>
        ensures { result ≡ AtWord what word.entry }
    {
        LineError::AtWord { what, word }
    }
}

impl fmt::Display for LineError<'_> {
    fn fmt<W: fmt::Write>(&self, f: &mut fmt::Formatter<W>) -> fmt::Result {
        let LineError::AtWord { what, word } = *self else {
            return write!(f, "no memory for the line");
        };
        match what {
            Misread::UnknownCommand => write!(f, "unknown command '{word}'"),
            Misread::UnknownArithmetic => write!(f, "unknown arithmetic '{word}'"),
            Misread::UnknownField => write!(f, "unknown field '{word}'"),
            Misread::FieldTwice => write!(f, "field '{word}' stands twice"),
            Misread::FieldMissing => write!(f, "field '{word}' is missing"),
            Misread::TooFewWords => write!(f, "a word is missing after '{word}'"),
            Misread::NumberMissing => write!(f, "a number is missing after '{word}'"),
            Misread::TooManyWords => write!(f, "'{word}' is too much"),
            Misread::NotANumber => write!(f, "'{word}' is no number"),
            Misread::NotWhole => write!(f, "'{word}' is no whole number"),
            Misread::TooLarge => write!(f, "'{word}' is too large"),
            Misread::NotACode => write!(f, "'{word}' is no code from 1 to 7"),
            Misread::OddCount => write!(f, "'{word}' takes an even count of numbers"),
        }
    }
}

impl Error for LineError<'_> {}

impl<'a> From<AllocError> for LineError<'a> {
    ghost from_gives = { λ a e. e ≡ OutOfMemory a };

    fn from(error: AllocError) -> LineError<'a> {
        LineError::OutOfMemory(error)
    }
}

impl<'a, T: Drop> From<AllocFailed<T>> for LineError<'a> {
    ghost from_gives = { λ _ e. e ≡ OutOfMemory alloc_error };

    fn from(_error: AllocFailed<T>) -> LineError<'a> {
        LineError::OutOfMemory(AllocError)
    }
}
