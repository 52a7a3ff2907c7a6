// An inner part of the runtime: what evaluation is run for: the values of the constants, and a cycle of the main instance.
#![tactic(auto)]

pub mod constants;
pub mod main_cycle;
