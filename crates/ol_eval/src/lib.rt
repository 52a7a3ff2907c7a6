// An inner part of the runtime: expressions, equations and node instances of an admitted file, evaluated where their bytes stand. Document 01, "The state".
#![tactic(auto)]

pub mod eval;
