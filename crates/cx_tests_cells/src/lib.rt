//! The tests of flat rules and of membership: tables and worked memories, of what no contract says.
#![tactic(auto)]

#[cfg(test)]
mod memories;
#[cfg(test)]
mod rules;
