// The rows of a file, read and stored.
ghost use Rattle.std.specs.Prelude.{◌≡◌, ℕ, ◌+◌, ◌*◌, ◌<◌, ◌≤◌, MatchOption, get_or, set};
ghost use Rattle.std.proofs.Math.ListN.{replicate};
ghost use Rattle.std.proofs.lemmas.List.Edits.{sets};
ghost use Rattle.ol_tables.specs.Tables.{row_at, first_at};
ghost use Rattle.ol_tables.specs.Numbers.{row_numbers, numbers, RowIs};

use super::bytes::entry;
use super::tables::{
    COLUMNS, COUNT, EQUATIONS, FIRSTS, FileRows, INPUTS, KIND, OUTPUTS, PLACE, Row, SIZE, VARIABLES,
};

// Entry j of node k's row in a list of rows; 0 past the end.
pub fn row(rows: &[usize], k: usize, j: usize) -> usize
    ensures { result ≡ row_at rows.now k j }
{
    if k < rows.len() && j < rows.len() {
        entry(rows, k * COLUMNS + j)
    } else {
        0
    }
}

impl Row {
    // Node k's row in a list of rows, with 0 for what lies past the end.
    fn of(list: &[usize], k: usize) -> Row
        ensures { RowIs list.now k result }
    {
        Row {
            kind: row(list, k, KIND),
            equations: row(list, k, EQUATIONS),
            inputs: row(list, k, INPUTS),
            outputs: row(list, k, OUTPUTS),
            variables: row(list, k, VARIABLES),
            count: row(list, k, COUNT),
            size: row(list, k, SIZE),
            place: row(list, k, PLACE),
        }
    }

    // Its numbers, in the order of the columns.
    pub(crate) fn numbers(&self) -> [usize; 8]
        ensures { result ≡ row_numbers self.now }
    {
        [
            self.kind,
            self.equations,
            self.inputs,
            self.outputs,
            self.variables,
            self.count,
            self.size,
            self.place,
        ]
    }
}

impl FileRows {
    // Rows of zeros.
    pub fn new() -> FileRows
        ensures { numbers result ≡ replicate 272 0 }
    {
        FileRows {
            nodes: [Row::default(); 32],
            firsts: [0; 16],
        }
    }

    // The rows whose numbers are a list's first ones, with 0 for what lies past its end.
    pub fn of(list: &[usize]) -> FileRows
        ensures { (i : ℕ) → i < 272 → get_or (numbers result) i 0 ≡ get_or list.now i 0 }
    {
        let mut rows = FileRows::new();
        for k in 0..32 {
            rows.put_node(k, Row::of(list, k));
        }
        for e in 0..16 {
            rows.put_first(e, entry(list, FIRSTS + e));
        }
        rows
    }

    // Node k's row, of a node below 32; `row` asks nothing.
    pub fn node(&self, k: usize) -> &Row
        requires { k < 32 }
        ensures { RowIs (numbers self.now) k result.now }
    {
        &self.nodes[k]
    }

    // Node k's row, for any k: none from 32 on.
    pub fn row(&self, k: usize) -> Option<Row>
        ensures { MatchOption result (32 ≤ k) (λ r. (k < 32) × RowIs (numbers self.now) k r) }
    {
        self.nodes.get(k).copied()
    }

    // The first variant of enum e.
    pub fn first(&self, e: usize) -> usize
        requires { e < 16 }
        ensures { result ≡ first_at (numbers self.now) e }
    {
        self.firsts[e]
    }

    // Stores node k's row.
    pub fn put_node(&mut self, k: usize, row: Row)
        requires { k < 32 }
        ensures { numbers self.new ≡ sets (numbers self.old) (k * 8) (row_numbers row) }
    {
        self.nodes[k] = row;
    }

    // Stores the bytes of the record at a call site of node k.
    pub fn put_size(&mut self, k: usize, size: usize)
        requires { k < 32 }
        ensures { numbers self.new ≡ set (numbers self.old) (k * 8 + 6) size }
    {
        self.nodes[k].size = size;
    }

    // Stores the first variant of enum e.
    pub fn put_first(&mut self, e: usize, x: usize)
        requires { e < 16 }
        ensures { numbers self.new ≡ set (numbers self.old) (256 + e) x }
    {
        self.firsts[e] = x;
    }
}
