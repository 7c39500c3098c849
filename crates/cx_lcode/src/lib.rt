//! What block code a function of C is lowered to.
#![tactic(auto)]
