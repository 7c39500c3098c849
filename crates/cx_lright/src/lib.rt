//! That the code to which a function of C is lowered does what the function does.
#![tactic(auto)]

mod law;

pub use law::code_is_right;
