//! Linear forms over numbered symbols, exact and within limits.
#![tactic(auto)]

mod combine;
mod listing;
mod parts;
mod replace;
mod term;

pub use term::{Ineq, Term};
