//! The tests of linear forms and ranges: tables and worked examples, of what no contract says.
#![tactic(auto)]

#[cfg(test)]
mod entail;
#[cfg(test)]
mod term;
