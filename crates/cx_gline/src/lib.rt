//! What holds of each line of the code to which a function of C is lowered.
#![tactic(auto)]

mod law;

pub use law::lines_of_code;
