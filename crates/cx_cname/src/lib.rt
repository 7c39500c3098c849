//! The names that are declared where a text stands: what the readers of declarations look up, add
//! and take back.
#![tactic(auto)]

pub mod journal;
mod look_up;
pub mod meaning;

pub use journal::{
    Change, add_constant, add_enumeration, add_tag, add_typedef, set_members, take_back,
};
pub use look_up::{
    constant_of, has_members, is_complete, is_union, names_enum, names_type, tag_place, typedef_of,
};
