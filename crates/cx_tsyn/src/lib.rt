//! The tree of a type file: its items, types, cells, linear forms and words, as they are written.
//!
//! A span goes from the first byte of a part's first token to past the last byte of its last token,
//! in bytes from the first byte of the type file. Contracts see each tree as plain data, by the
//! functions `word_tree`, `lin_tree`, `stype_tree`, `surface_tree` and their kin in `specs/`.
#![tactic(auto)]

mod cell;
mod item;
mod lin;
mod stype;
mod word;

pub use cell::{SCell, SCellKind};
pub use item::{AllocItem, FuncItem, GlobalItem, RegionItem, SArg, SResult, Surface, TypeItem};
pub use lin::{Lin, LinPart, Relation, SRel};
pub use stype::{AsTag, Atom, SBranch, SField, SType};
pub use word::{Word, place};
