//! The tests of the lowest crates, a module for each: tables and worked examples, of what no contract
//! says.
#![tactic(auto)]

#[cfg(test)]
mod abi;
#[cfg(test)]
mod base;
#[cfg(test)]
mod lex;
