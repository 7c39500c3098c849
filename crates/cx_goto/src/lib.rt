//! Block code: what functions of C are lowered to, and what a run of it does.
#![tactic(auto)]

mod code;
mod law;
mod whole;

pub use code::{Block, Code, End, Instr, Line, Op, Rel};
pub use law::more_steps;
pub use whole::is_whole;
