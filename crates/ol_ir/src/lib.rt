// The file form of document 01, read where it stands: every item by the offset at which it starts, and no tree is built.
#![tactic(auto)]

use ol_spec::Limits;

pub mod read; // read.rt: bytes, codes, counts and sections
mod types; // types.rt: types
pub mod expr; // expr.rt: expressions
mod skip; // skip.rt: equations passed over
pub mod node; // node.rt: variables, equations and nodes
pub mod project; // project.rt: enums, constants and the whole file

// What its items are read by: the file, the limits, and how many enums the file has.
#[derive(Clone, Copy)]
pub(crate) struct Reader<'a> {
    file: &'a [u8],
    limits: &'a Limits,
    enums: usize,
}

// What reading a count, or an expression's first bytes, finds: so many items follow, and where the first starts. No `Parts` of ol_tables, whose two numbers are
// an expression's parts only: here the items may be names, variables, nodes or others, and both types stand in public signatures.
#[derive(Clone, Copy)]
pub struct Counted {
    pub count: usize,
    pub at: usize,
}

// What loading a file finds: how many enums and how many nodes it has.
#[derive(Clone, Copy)]
pub struct Loaded {
    pub enums: usize,
    pub nodes: usize,
}

// What a scan for reads finds at an expression: a Var's name, or how many parts are left to scan,
// and where the scan goes on. No Result: both are heads, each with what the scan goes on with, and none is a failure.
#[derive(Clone, Copy)]
pub enum Scan {
    Name(usize, usize),
    Parts(usize, usize),
}
