//! The tests of the lowering of C functions: worked examples from a text to the numbers of its code, and each limit
//! at its number and one past it.
#![tactic(auto)]

#[cfg(test)]
mod limits;
#[cfg(test)]
mod lowered;
#[cfg(test)]
mod numbers;
