// The tables that every public call builds of a file, and what they are built with: bytes and names, an expression's head and the walk over heads.
#![tactic(auto)]

pub mod bytes; // bytes.rt: bytes, names and table entries
pub mod form; // form.rt: the forms of expressions
pub mod kind; // kind.rt: the kinds of nodes
pub mod heads; // heads.rt: expressions, head by head
pub mod tables; // tables.rt: the rows of a file, and their columns in the table of bytes
pub mod rows; // rows.rt: the rows, read and stored
pub mod table; // table.rt: the table of a file, as bytes
