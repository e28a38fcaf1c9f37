// Every refusal by its cause, with its number, its layer and a sentence.
ghost use Rattle.std.specs.Prelude.{◌≡◌, Some};
ghost use Rattle.fault.specs.Refusal.{number_of, layer_number, layer_of, sentence_of, fault_text};

use crate::layer::Layer;
use std::error::Error;
use std::fmt;

// What is wrong, in the order of the numbers that a controller logs. There is no number 20.
#[derive(Clone, Copy, Debug, PartialEq, Eq)]
pub enum Cause {
    SetList = 1,
    Count = 2,
    NotFinite = 3,
    UpsideDown = 4,
    CountsDisagree = 5,
    Size = 6,
    NoTable = 7,
    Part = 8,
    Bounds = 9,
    Depth = 10,
    UnknownWord = 11,
    TooManyDigits = 12,
    Brace = 13,
    Procedure = 14,
    Nesting = 15,
    Room = 16,
    NoFunction = 17,
    InputCount = 18,
    OutputList = 19,
    NoSample = 21,
    Operands = 22,
    FullStack = 23,
    Quotient = 24,
    Shift = 25,
    VetOperands = 26,
    VetUnknown = 27,
    VetBranches = 28,
    VetOutputs = 29,
    VetPart = 30,
    VetSamples = 31,
    UnitShape = 32,
    UnitStretch = 33,
    Stride = 34,
}

// Why a call was refused: the cause, the function or table that it arose in, and the place there.
// Where there is none, index and place are 0 and no Option: a controller logs three numbers, and the record shows them so.
#[derive(Clone, Copy, Debug, PartialEq, Eq)]
pub struct Fault {
    pub cause: Cause,
    pub index: usize,
    pub place: usize,
}

impl Cause {
    pub fn layer(self) -> Layer
        ensures { layer_number result ≡ layer_of self }
    {
        match self {
            Cause::UnknownWord
            | Cause::TooManyDigits
            | Cause::Brace
            | Cause::Procedure
            | Cause::Nesting => Layer::Text,
            Cause::Operands
            | Cause::FullStack
            | Cause::Quotient
            | Cause::Shift
            | Cause::VetOperands
            | Cause::VetUnknown
            | Cause::VetBranches => Layer::Machine,
            Cause::Count
            | Cause::NotFinite
            | Cause::UpsideDown
            | Cause::CountsDisagree
            | Cause::Size
            | Cause::NoTable
            | Cause::Part
            | Cause::Bounds
            | Cause::Depth
            | Cause::NoSample
            | Cause::VetOutputs
            | Cause::VetPart
            | Cause::VetSamples => Layer::Function,
            Cause::SetList
            | Cause::Room
            | Cause::NoFunction
            | Cause::InputCount
            | Cause::OutputList
            | Cause::UnitShape
            | Cause::UnitStretch
            | Cause::Stride => Layer::Set,
        }
    }

    // The refusal in plain words.
    pub fn sentence(self) -> &'static str
        ensures { result.now ≡ sentence_of self }
    {
        match self {
            Cause::SetList => "a list of the set is empty or too long",
            Cause::Count => "a count of pairs, sizes, coefficients or parts is outside its limits",
            Cause::NotFinite => "a number is not finite",
            Cause::UpsideDown => "a Domain or Range pair is upside down",
            Cause::CountsDisagree => "two counts that belong together disagree",
            Cause::Size => "a Size or the number of samples is outside its limits",
            Cause::NoTable => "the sample unit has no such table",
            Cause::Part => "a part is not loaded or not of one input",
            Cause::Bounds => "the Bounds fall or leave the Domain",
            Cause::Depth => "the stitched functions are nested too deep",
            Cause::UnknownWord => "a word is unknown or a delimiter stray",
            Cause::TooManyDigits => "a number has too many digits",
            Cause::Brace => "a brace is missing",
            Cause::Procedure => "a procedure is missing, a third one or left over",
            Cause::Nesting => "procedures are nested too deep",
            Cause::Room => "too few free entries",
            Cause::NoFunction => "no such function",
            Cause::InputCount => "the number of inputs is not the Domain's",
            Cause::OutputList => "the output list is too short",
            Cause::NoSample => "a sample is missing",
            Cause::Operands => "too few operands or a count too great",
            Cause::FullStack => "a literal comes on a full stack",
            Cause::Quotient => "a quotient does not exist",
            Cause::Shift => "a shift is beyond 31 places",
            Cause::VetOperands =>
                "vetting: too few operands, or a count or the height is too great",
            Cause::VetUnknown => "vetting: an operand is not known or not allowed",
            Cause::VetBranches => "vetting: the two ways of a branch reach different heights",
            Cause::VetOutputs => "vetting: output counts disagree, or a calculator has no Range",
            Cause::VetPart => "vetting: a part is not vetted",
            Cause::VetSamples => "vetting: the table holds too few samples",
            Cause::UnitShape => "a sample unit has an unknown width or too many tables",
            Cause::UnitStretch =>
                "a stretch of a sample unit is outside its list, or a word is too great",
            Cause::Stride => "the stride is 0",
        }
    }
}

impl From<Cause> for u8 {
    ghost from_gives = { λ cause number. number ≡ number_of cause };

    fn from(cause: Cause) -> u8 {
        cause as u8
    }
}

impl fmt::Display for Cause {
    ghost output = { λ cause. Some (sentence_of cause) };

    fn fmt<W: fmt::Write>(&self, f: &mut fmt::Formatter<W>) -> fmt::Result {
        f.write_str(self.sentence())
    }
}

// The record's words for a fault.
impl fmt::Display for Fault {
    ghost output = { λ fault. Some (fault_text fault) };

    fn fmt<W: fmt::Write>(&self, f: &mut fmt::Formatter<W>) -> fmt::Result {
        let Fault {
            cause,
            index,
            place,
        } = *self;
        let number = u8::from(cause);
        let layer = u8::from(cause.layer());
        write!(
            f,
            "fault {number} layer {layer} index {index} place {place} ({cause})"
        )
    }
}

impl Error for Fault {}
