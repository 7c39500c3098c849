//! The types of bytes that the checker works with: a form for each region type, and the types of
//! functions, allocators and globals, all over linear forms in numbered symbols. In `specs/` stands
//! what they mean.
#![tactic(auto)]

mod calls;
mod cell;
mod form;
mod kept;
mod range;
mod rules;
mod same;
mod script;
mod telling;

pub use calls::{AllocArg, AllocType, FnType, GlobalType, ResultType};
pub use cell::{CellKind, FlatCell};
pub use form::{CaseBranch, Form, Part, Tail};
pub use range::cell_range;
pub use rules::Rules;
pub use script::{Answer, Block, Change, Rewrite, Script};
pub use telling::{Told, kind_names, telling_cell, telling_kind, told_by};
