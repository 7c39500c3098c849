//! The linear forms, relations and divisors of a type file that break their rule, by exact values.
#![tactic(auto)]

mod amount;
mod cells;
mod forms;
mod items;
mod terms;
mod types;

pub use items::faulty_form;
