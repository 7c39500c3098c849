//! Abstract states: what they say, what they become when something is learnt, and what of them stands
//! whatever others do to shared regions.
#![tactic(auto)]

mod sharing;

pub use cx_fact::{settle, tell};
pub use cx_learn::learn;
pub use cx_packed::{PackFault, Packed, pack};
pub use cx_query::{base, point, range_of, shown, shown_with};
pub use cx_state::{
    Access, Cell, Cond, Env, EnvFault, EnvLimit, Fact, Head, Inv, Pointed, Verdict, known,
    valid_env,
};
pub use sharing::without_shared;
