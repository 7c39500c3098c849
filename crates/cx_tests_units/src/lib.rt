//! The tests of the reader of C files: worked examples from a text to the items with their trees, of what
//! no contract says.
#![tactic(auto)]

#[cfg(test)]
mod depth;
#[cfg(test)]
mod expressions;
#[cfg(test)]
mod items;
#[cfg(test)]
mod statements;
#[cfg(test)]
mod units;
