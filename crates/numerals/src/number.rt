// Numbers as a job writes them, and as the record shows them.
ghost use Rattle.std.specs.Prelude.{◌≡◌, Some, None, is_nan, codes, if◌then◌else◌};
ghost use Rattle.numerals.specs.Numbers.{ReadsBits, ReadsNumber, bits_text};

use std::fmt;
use std::num::{f32_from_bits_with_nan, f32_to_bits_with_nan};

// A decimal as Rust reads it, or `0x` and the bits of the number in hex.
pub fn float(word: &str) -> Option<f32>
    ensures { ReadsNumber word.now result }
{
    // A match: map_or_else would name the decimal before the hex.
    match word.strip_prefix("0x") {
        Some(digits) => from_hex(digits),
        None => word.parse().ok(),
    }
}

// One to eight hex digits.
fn from_hex(digits: &str) -> Option<f32>
    ensures { ReadsBits digits.now result }
{
    if digits.len() > 8 || digits.starts_with('+') {
        return None;
    }
    let bits = u32::from_str_radix(digits, 16).ok()?;
    Some(f32_from_bits_with_nan(bits))
}

// A number that prints as the eight hex digits of its bits, or as `nan`.
#[derive(Clone, Copy, Debug, PartialEq)]
pub struct Bits(pub f32);

impl fmt::Display for Bits {
    ghost output = { λ b. Some (bits_text b.0) };

    fn fmt<W: fmt::Write>(&self, f: &mut fmt::Formatter<W>) -> fmt::Result {
        if self.0.is_nan() {
            return f.write_str("nan");
        }
        let bits = f32_to_bits_with_nan(self.0);
        write!(f, "{bits:08x}")
    }
}

// A number that prints for a person: as Rust shows it, but `nan`.
#[derive(Clone, Copy, Debug, PartialEq)]
pub struct Shown(pub f32);

impl fmt::Display for Shown {
    ghost output = { λ s. if is_nan s.0 then Some (codes "nan") else None };

    fn fmt<W: fmt::Write>(&self, f: &mut fmt::Formatter<W>) -> fmt::Result {
        let number = self.0;
        if number.is_nan() {
            return f.write_str("nan");
        }
        write!(f, "{number}")
    }
}
