//! The tests of abstract states: what is shown of worked states, and what they learn.
#![tactic(auto)]

#[cfg(test)]
mod states;
