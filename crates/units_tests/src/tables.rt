// Directories for the tests of the sample units.
use units::Stretch;

pub fn stretch(width: u32, start: usize, length: usize) -> Stretch {
    Stretch {
        width,
        start,
        length,
    }
}
