//! Abstract states: what the checker knows at a place of a function, as linear forms over numbered
//! symbols. In `specs/` stands when a state is true of a memory.
#![tactic(auto)]

mod copy;
mod look;
mod same;
mod state;
mod valid;

pub use look::known;
pub use state::{Access, Cell, Cond, Env, EnvFault, EnvLimit, Fact, Head, Inv, Pointed, Verdict};
pub use valid::valid_env;
