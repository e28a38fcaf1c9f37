// Tests of what a line is read into, of what is said of a line that is not understood, and of how
// numbers are read and written.
#![tactic(auto)]

#[cfg(test)]
mod lines_read;
#[cfg(test)]
mod lines_refused;
#[cfg(test)]
mod numbers;
#[cfg(test)]
mod showing;
