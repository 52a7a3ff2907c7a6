// Entries of the tables of a file.
ghost use Rattle.std.specs.Prelude.{◌≡◌, ◌<◌, ◌≤◌, length, ◌+◌, max};
ghost use Rattle.ol_tables.specs.Table.{rows_of, tab_of, types_at};
ghost use Rattle.ol_tables.specs.Tables.{row_at, code_at, length_at, count_at, slot_at, name_cell_at, name_length_at, slots_from, order_at};
ghost use Rattle.ol_state.specs.Defaults.{widths_at};
ghost use Rattle.ol_frame.specs.Slots.{Says};

use ol_tables::table::{NODES, ORDERS, SLOTS};
use ol_tables::tables::{COLUMNS, CONSTANT_CELLS, MOST_EQUATIONS, NO_CELL, VARIABLES};

// Entry j of node k's row, which stands in the table: ol_tables' `column` without its tests, with which a cycle of feeder30 was measured 5 percent slower, which misses its measure of speed (docs/PERFORMANCE.md). Three bytes have no from_be_bytes. That the table has these parts stays a fact of
// the callers: a struct of the table was measured slower in evaluation (ol_eval).
pub fn row(tab: &[u8], k: usize, j: usize) -> usize
    requires { (816 ≤ length tab.now) × (k < 32) × (j < 8) }
    ensures { result ≡ row_at (rows_of tab.now) k j }
{
    let p = 3 * (k * COLUMNS + j);
    usize::from(tab[p]) * 65536 + usize::from(tab[p + 1]) * 256 + usize::from(tab[p + 2])
}

// Where the types of node k's variables start in the table: ol_tables' `types_of` without its tests, as `row` is `column`.
fn types_at(tab: &[u8], k: usize) -> usize
    requires { (slots_from ≤ length (tab_of tab.now)) × (k < 32) }
    ensures { (result ≡ types_at tab.now k) × (result < 9300000000000000000) }
{
    let a = NODES + 8 * k;
    SLOTS + (tab.len() - SLOTS) / 2 + usize::from(u16::from_be_bytes([tab[a], tab[a + 1]]))
}

// The type code of variable i of node k, an array's that of its elements.
pub fn code_of(tab: &[u8], k: usize, i: usize) -> u8
    requires { (slots_from ≤ length (tab_of tab.now)) × (k < 32) × (i < 112) }
    ensures { result ≡ code_at (tab_of tab.now) k i }
{
    let p = types_at(tab, k) + 2 * i;
    tab.get(p).copied().unwrap_or(0) % 16
}

// The length of variable i of node k, if it is an array, else 0.
pub fn length_of(tab: &[u8], k: usize, i: usize) -> usize
    requires { (slots_from ≤ length (tab_of tab.now)) × (k < 32) × (i < 112) }
    ensures { (result ≡ length_at (tab_of tab.now) k i) × (result < 256) }
{
    let p = types_at(tab, k) + 2 * i + 1;
    usize::from(tab.get(p).copied().unwrap_or(0))
}

// How many cells an array of n elements has; a scalar, whose length is 0, has one.
pub fn cells_for(n: usize) -> usize
    ensures { result ≡ max n 1 }
{
    n.max(1)
}

// Number j of node k's counts of cells: ol_tables' `cells_of` without its tests, as `row` is `column`.
pub fn cells_of(tab: &[u8], k: usize, j: usize) -> usize
    requires { (slots_from ≤ length (tab_of tab.now)) × (k < 32) × (j < 4) }
    ensures { (result ≡ count_at (tab_of tab.now) k j) × (result < 65536) }
{
    let p = NODES + 8 * k + 2 * j;
    usize::from(u16::from_be_bytes([tab[p], tab[p + 1]]))
}

// How many cells the first i variables of node k have.
fn cells_before(tab: &[u8], k: usize, i: usize) -> usize
    requires { (slots_from ≤ length (tab_of tab.now)) × (k < 32) × (i ≤ 112) }
    ensures { result ≡ widths_at (tab_of tab.now) k 0 i }
{
    let mut cells = 0;
    for j in 0..i {
        cells += cells_for(length_of(tab, k, j));
    }
    cells
}

// The first cell of variable i of node k: its index, unless the node has more cells than variables.
pub(crate) fn first_cell(tab: &[u8], k: usize, i: usize) -> usize
    requires { (slots_from ≤ length (tab_of tab.now)) × (k < 32) × (row_at (rows_of tab.now) k 4 ≤ 112) × (i < row_at (rows_of tab.now) k 4) × (count_at (tab_of tab.now) k 3 ≡ widths_at (tab_of tab.now) k 0 (row_at (rows_of tab.now) k 4)) }
    ensures { result ≡ widths_at (tab_of tab.now) k 0 i }
{
    if cells_of(tab, k, 3) == row(tab, k, VARIABLES) {
        i
    } else {
        cells_before(tab, k, i)
    }
}

// What a name is: a variable of its node or a constant of the file, by its first cell, or else a variant, if anything.
#[derive(Clone, Copy)]
pub(crate) enum Slot {
    Variable(usize),
    Constant(usize),
    Other,
}

// What the name is that stands at a place, a Var's.
pub(crate) fn slot_at(tab: &[u8], at: usize) -> Slot
    requires { slots_from + at + 1 < length (tab_of tab.now) }
    ensures { Says (name_cell_at (tab_of tab.now) at) result }
{
    match usize::from(u16::from_be_bytes([tab[SLOTS + at], tab[SLOTS + at + 1]])) {
        c @ 0..CONSTANT_CELLS => Slot::Variable(c),
        c @ CONSTANT_CELLS..NO_CELL => Slot::Constant(c - CONSTANT_CELLS),
        _ => Slot::Other,
    }
}

// The length of the array that the Var at `at` names, 0 where it names a scalar.
pub(crate) fn named_length(tab: &[u8], at: usize) -> usize
    requires { slots_from + at < length (tab_of tab.now) }
    ensures { (result ≡ name_length_at (tab_of tab.now) (at + 1)) × (result < 256) }
{
    usize::from(tab[SLOTS + at])
}

// The index of the variable whose name stands at a place in front of an equation.
pub(crate) fn defined_at(tab: &[u8], at: usize) -> usize
    requires { slots_from + at < length (tab_of tab.now) }
    ensures { (result ≡ slot_at (tab_of tab.now) at) × (result < 256) }
{
    usize::from(tab[SLOTS + at])
}

// Which equation of node k runs j-th.
pub fn order_at(tab: &[u8], k: usize, j: usize) -> usize
    requires { (slots_from ≤ length (tab_of tab.now)) × (k < 32) × (j < 80) }
    ensures { (result ≡ order_at (tab_of tab.now) k j) × (result < 256) }
{
    usize::from(tab[ORDERS + k * MOST_EQUATIONS + j])
}
