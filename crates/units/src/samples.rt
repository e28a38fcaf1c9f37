// What gives a function the samples of its tables.
ghost use Rattle.std.specs.Prelude.{◌≡◌, ◌-◌, ◌^◌, List, Some};
ghost use Rattle.units.specs.Samples.{Table, WellFormed, bits_of, WidthOf, unknown_width_text, width_in, count_in, sample_in};

use std::error::Error;
use std::fmt;

// The bits of a sample.
#[derive(Clone, Copy, Debug, PartialEq, Eq)]
pub enum Width {
    One = 1,
    Two = 2,
    Four = 4,
    Eight = 8,
    Sixteen = 16,
    TwentyFour = 24,
    ThirtyTwo = 32,
}

// A number of bits that no sample has. No type for both this and UnknownCode: one holds a u32, the other a u8, and their texts differ.
#[derive(Clone, Copy, Debug, PartialEq, Eq)]
pub struct UnknownWidth(pub u32);

impl Width {
    // The largest sample.
    pub fn largest(self) -> u32
        ensures { result ≡ 2 ^ bits_of self - 1 }
    {
        u32::MAX >> (32 - u32::from(self))
    }
}

impl From<Width> for u32 {
    ghost from_gives = { λ width bits. bits ≡ bits_of width };

    fn from(width: Width) -> u32 {
        width as u32
    }
}

impl TryFrom<u32> for Width {
    type Error = UnknownWidth;

    ghost try_from_gives = { WidthOf };

    fn try_from(bits: u32) -> Result<Width, UnknownWidth> {
        match bits {
            1 => Ok(Width::One),
            2 => Ok(Width::Two),
            4 => Ok(Width::Four),
            8 => Ok(Width::Eight),
            16 => Ok(Width::Sixteen),
            24 => Ok(Width::TwentyFour),
            32 => Ok(Width::ThirtyTwo),
            _ => Err(UnknownWidth(bits)),
        }
    }
}

impl fmt::Display for UnknownWidth {
    ghost output = { λ unknown. Some (unknown_width_text unknown) };

    fn fmt<W: fmt::Write>(&self, f: &mut fmt::Formatter<W>) -> fmt::Result {
        write!(f, "no sample has {} bits", self.0)
    }
}

impl Error for UnknownWidth {}

// A unit's meaning is up to 64 tables, numbered from 0. Where the table or the index is outside, the answer is none.
pub trait Samples {
    ghost tables: { Self → List Table };

    fn width(&self, table: usize) -> Option<Width>
        ensures { result ≡ width_in (tables self.now) table };

    // How many samples the table has.
    fn count(&self, table: usize) -> Option<usize>
        ensures { result ≡ count_in (tables self.now) table };

    fn sample(&self, table: usize, index: usize) -> Option<u32>
        ensures { result ≡ sample_in (tables self.now) table index };

    ghost sound: { (unit : Self) → WellFormed (tables unit) };
}
