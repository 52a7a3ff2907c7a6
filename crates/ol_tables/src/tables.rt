// The rows of a file: a row for each of 32 nodes, and the first variant of each of 16 enums.
ghost use Rattle.std.specs.Prelude.{◌≡◌, length};

// The columns of a node's row in the table of bytes, and how many there are. Numbers: `column` is public and takes any j, so that an enum, a narrower type, would
// ask more of its callers.
pub const KIND: usize = 0;

pub const EQUATIONS: usize = 1; // where the first equation starts

pub const INPUTS: usize = 2;

pub const OUTPUTS: usize = 3;

pub const VARIABLES: usize = 4;

pub const COUNT: usize = 5; // how many equations there are

pub const SIZE: usize = 6; // the bytes of the record at a call site

pub const PLACE: usize = 7; // where the node starts

pub const COLUMNS: usize = 8;

// Where the first variants start in the numbers of the rows, and how many these numbers are.
pub const FIRSTS: usize = 256;

pub const ROWS: usize = 272;

// In a table by name, the entry of a variant.
pub const VARIANT: usize = 255;

// The most equations of a node.
pub const MOST_EQUATIONS: usize = 80;

// The cell of a name, as a slot has it: below these two a variable's, from the first on a constant's; the second is a variant's.
pub const CONSTANT_CELLS: usize = 3584;

pub const NO_CELL: usize = 65535;

// A node's row. The kind stays a byte of the file: ol_check's `node_row`, `may_call` and `record_size` are not told that it is below 3, so that a kind would be a
// fourth variant or a Result at each use.
#[derive(Clone, Copy, Default)]
pub struct Row {
    pub kind: usize,
    pub equations: usize, // where the first equation starts
    pub inputs: usize,
    pub outputs: usize,
    pub variables: usize,
    pub count: usize, // how many equations there are
    pub size: usize, // the bytes of the record at a call site
    pub place: usize, // where the node starts
}

// The rows of the nodes, and the first variants of the enums. The ghost field tells other crates the lengths that the types have.
#[derive(Clone, Copy)]
pub struct FileRows {
    pub(crate) nodes: [Row; 32],
    pub(crate) firsts: [usize; 16],
    pub ghost lengths: { (length nodes ≡ 32) × (length firsts ≡ 16) },
}
