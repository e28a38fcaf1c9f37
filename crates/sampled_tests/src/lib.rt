// Sampled functions: what they compute, what is refused, and what is laid into a number list.
#![tactic(auto)]

#[cfg(test)]
mod evaluating;
#[cfg(test)]
mod loading;

#[cfg(test)]
use units::Stretch;

// A table of so many samples of 8 bits, at the front of a unit.
#[cfg(test)]
fn bytes(length: usize) -> Stretch {
    Stretch {
        width: 8,
        start: 0,
        length,
    }
}
