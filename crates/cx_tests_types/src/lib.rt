//! The tests of the readers of type files: worked examples of what no contract says.
#![tactic(auto)]

#[cfg(test)]
mod depth;
#[cfg(test)]
mod faults;
#[cfg(test)]
mod files;
#[cfg(test)]
mod lins;
#[cfg(test)]
mod words;
