//! Worked examples of definitions that stand in statements, each proved: of a definition what holds and what is refuted, so that another
//! definition in its place should leave one of them unproved.
#![tactic(auto)]

pub mod examples;
