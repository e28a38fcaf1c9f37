// Floats by their bits, for the tests of the arithmetic units.

// None for every NaN.
pub fn bits(x: f32) -> Option<u32> {
    if x.is_nan() { None } else { Some(x.to_bits()) }
}
