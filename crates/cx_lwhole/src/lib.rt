//! That the code to which a function of C is lowered is whole.
#![tactic(auto)]

mod law;

pub use law::code_is_whole;
