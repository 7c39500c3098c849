//! The tests of the typing of C functions: worked examples from a text to what the function is typed as, of what
//! no contract says.
#![tactic(auto)]

#[cfg(test)]
mod functions;
#[cfg(test)]
mod sizes;
#[cfg(test)]
mod typed;
