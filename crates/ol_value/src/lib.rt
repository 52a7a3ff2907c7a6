// Everything that evaluation does to single values: document 01, "The cell".
#![tactic(auto)]

pub mod cell;
pub mod codes;
mod narrowing;
pub mod operators;
mod reals;
pub mod types;
