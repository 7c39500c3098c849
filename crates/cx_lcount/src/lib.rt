//! How many blocks and locals the code has to which a function of C is lowered.
#![tactic(auto)]

mod law;

pub use law::numbers_of_code;
