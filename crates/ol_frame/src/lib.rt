// An inner part of the runtime: what evaluation uses: outcomes, the values of names and literals, cells that are copied and stored, walks over expressions.
#![tactic(auto)]

pub mod arrays;
pub mod copies;
pub mod equations;
pub mod frame;
pub mod names;
pub mod outcomes;
pub mod skip;
pub mod tables;
