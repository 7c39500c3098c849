//! The top call of Codex: `run` does what the words ask for, and writes the text that says how it
//! ended. Its contract carries the promise of the whole program.
#![tactic(auto)]

mod ending;
mod files;
mod report;
mod status;
mod text;
mod top;
mod words;

pub use status::Status;
pub use top::run;
