//! The law of opening: what is added to a state when a region is opened is true. This crate has definitions
//! and proofs alone; the calls that they are about are in `cx_head`, and have the law as a clause in
//! `cx_focus`.
#![tactic(auto)]
