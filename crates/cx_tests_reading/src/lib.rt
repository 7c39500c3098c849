//! The tests of the readers of C: worked examples from a text to the trees, of what no contract says.
#![tactic(auto)]

mod cases;

pub use cases::{CASTS, LEAVES, LEVELS, PREFIXES, SPANS, SUFFIXES};

#[cfg(test)]
mod declarations;
#[cfg(test)]
mod depth;
#[cfg(test)]
mod expressions;
#[cfg(test)]
mod fronts;
#[cfg(test)]
mod units;
