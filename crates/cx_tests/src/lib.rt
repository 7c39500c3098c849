//! The tests of the crates from files and sinks up to the top call, a module for each layer: worked
//! examples and tables, of what no contract says. Those of the lowest crates stand in
//! `cx_tests_lower`.
#![tactic(auto)]

mod sure;

pub use sure::check_over_sure_files;

#[cfg(test)]
mod form;
#[cfg(test)]
mod io;
#[cfg(test)]
mod sorts;
#[cfg(test)]
mod top;
