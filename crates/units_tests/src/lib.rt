// The units at the edges of their rules.
#![tactic(auto)]

#[cfg(test)]
mod bits;
#[cfg(test)]
mod house;
#[cfg(test)]
mod packed;
#[cfg(test)]
mod question;
#[cfg(test)]
mod recorded;
#[cfg(test)]
mod refusals;
#[cfg(test)]
mod tables;
#[cfg(test)]
mod unpacked;
#[cfg(test)]
mod widths;
