// The table of a file, as bytes: all that the state and evaluation are told of it besides its own bytes.
// - The numbers of its rows, three bytes each.
// - How many cells of constants are known, two bytes; and these cells, but in a wide table.
// - The evaluation orders, 80 entries for each of 32 nodes.
// - Four numbers of two bytes for each of 32 nodes: where it starts, and how many cells its inputs have, its inputs and outputs, and all its variables.
// - The slots, one for each place of the file. At a Var: its name's array length (0 for a scalar), then, in two bytes, its cell: that of a variable is its first,
//   that of a constant 3584 and its first, that of a variant 65535. At a name that an equation defines: the variable's index.
// - In as many bytes, the plans of the nodes, each from its node's place on: the types of its variables, two bytes each (the scalar's or the element's code and 16 times its enum's number,
//   then the array's length), then for each equation its place, then for each equation the bytes of the records before it. The types of the constants stand there from the first
//   constant's place on. In a wide table the constants' cells are the last bytes of the plans.
// No struct of its parts: a small file's table has 6,258 bytes and a large one's 69,746, and what is cleared at each call is a part of a cycle's time.
ghost use Rattle.std.specs.Prelude.{◌≡◌, ℕ, ◌+◌, ◌*◌, ◌≤◌, ◌<◌, length, get_or};
ghost use Rattle.ol_tables.specs.Tables.{row_at, first_at, count_at};
ghost use Rattle.ol_tables.specs.Numbers.{numbers};
ghost use Rattle.ol_tables.specs.Table.{rows_of, tab_of, known_of, consts_from, types_at, number_put, Packs};

use super::bytes::{byte, name};
use super::tables::{COLUMNS, FIRSTS, FileRows, ROWS};

// Where its parts start, and its length for a file of at most 256 bytes, of at most 1,024, for any, and for one whose constants have more than 64 cells.
pub const KNOWN: usize = 816; // how many cells of constants are known

pub const CONSTANTS: usize = 818; // these cells, but in a wide table

pub const ORDERS: usize = 1394;

pub const NODES: usize = 3954; // the four numbers of each node

pub const SLOTS: usize = 4210;

pub const TINY_TAB: usize = 4722;

pub const SMALL_TAB: usize = 6258;

pub const LARGE_TAB: usize = 69746;

pub const WIDE_TAB: usize = 106610;

// The bytes of the most cells of constants, at the end of a wide table.
const WIDE_CONSTANTS: usize = 18432;

// Number i of the rows; 0 past their end. By `byte` and no `u32::from_be_bytes`: that takes an array, for which the bytes have to be there.
#[tactic(auto, using(crate::proofs::TableLaws::rows_get, crate::proofs::TableLaws::rows_past))]
fn number_at(tab: &[u8], i: usize) -> usize
    ensures { result ≡ get_or (rows_of tab.now) i 0 }
{
    if i < ROWS {
        let p = 3 * i;
        byte(tab, p) * 65536 + byte(tab, p + 1) * 256 + byte(tab, p + 2)
    } else {
        0
    }
}

// Column j of node k's row; 0 past the end.
#[tactic(auto, using(crate::proofs::TableLaws::rows_past))]
pub fn column(tab: &[u8], k: usize, j: usize) -> usize
    ensures { result ≡ row_at (rows_of tab.now) k j }
{
    if k < ROWS && j < ROWS {
        number_at(tab, k * COLUMNS + j)
    } else {
        0
    }
}

// The first variant of enum e; 0 past the end.
#[tactic(auto, using(crate::proofs::TableLaws::rows_past))]
pub fn first_variant(tab: &[u8], e: usize) -> usize
    ensures { result ≡ first_at (rows_of tab.now) e }
{
    if e < ROWS {
        number_at(tab, FIRSTS + e)
    } else {
        0
    }
}

// How many cells of constants are known.
pub fn known(tab: &[u8]) -> usize
    ensures { (result ≡ known_of tab.now) × (result < 65536) }
{
    name(tab, KNOWN)
}

// Where the constants' cells start.
pub fn consts_from(tab: &[u8]) -> usize
    ensures { result ≡ consts_from tab.now }
{
    if tab.len() <= LARGE_TAB {
        CONSTANTS
    } else {
        tab.len() - WIDE_CONSTANTS
    }
}

// Number j of node k, from 1 on: the cells of its inputs, of its inputs and outputs, of all its variables; 0 past the end.
#[tactic(auto, using(crate::proofs::TableLaws::count_from_lem))]
pub fn cells_of(tab: &[u8], k: usize, j: usize) -> usize
    requires { (k ≤ 65535) × (j ≤ 3) }
    ensures { (result ≡ count_at (tab_of tab.now) k j) × (result < 65536) }
{
    name(tab, NODES + 8 * k + 2 * j)
}

// Where the types of node k's variables start in the table.
pub fn types_of(tab: &[u8], k: usize) -> usize
    requires { k ≤ 65535 }
    ensures { (result ≡ types_at tab.now k) × (result < 9300000000000000000) }
{
    let at = name(tab, NODES + 8 * k);
    SLOTS + tab.len().saturating_sub(SLOTS) / 2 + at
}

// Stores number i. That the table has room for the rows stays a fact, here and in the three functions below: the tables of small and large files differ in length.
fn put_number(tab: &mut [u8], i: usize, n: usize)
    requires { (i < 272) × (816 ≤ length tab.old) × (n < 16777216) }
    ensures { tab.new ≡ number_put tab.old i n }
{
    let [_, a, b, c] = (n as u32).to_be_bytes();
    tab[3 * i..3 * i + 3].copy_from_slice(&[a, b, c]);
}

// Stores the numbers of a list of rows from index `first` up to `last`.
pub fn pack(rows: &[usize], first: usize, last: usize, tab: &mut [u8])
    requires { (first ≤ last) × (last ≤ 272) × (last ≤ length rows.now) × (816 ≤ length tab.old) × ((i : ℕ) → first ≤ i → i < last → get_or rows.now i 0 < 16777216) }
    ensures { Packs rows.now first last tab.old tab.new }
{
    for i in first..last {
        put_number(tab, i, rows[i]);
    }
}

// Stores the rows of so many nodes.
pub fn pack_nodes(rows: &FileRows, count: usize, tab: &mut [u8])
    requires { (count ≤ 32) × (816 ≤ length tab.old) × ((i : ℕ) → 0 ≤ i → i < count * 8 → get_or (numbers rows.now) i 0 < 16777216) }
    ensures { Packs (numbers rows.now) 0 (count * 8) tab.old tab.new }
{
    for k in 0..count {
        let row = rows.node(k).numbers();
        for (j, n) in row.iter().enumerate() {
            put_number(tab, k * COLUMNS + j, *n);
        }
    }
}

// Stores the first variants of so many enums.
pub fn pack_firsts(rows: &FileRows, count: usize, tab: &mut [u8])
    requires { (count ≤ 16) × (816 ≤ length tab.old) × ((i : ℕ) → 256 ≤ i → i < 256 + count → get_or (numbers rows.now) i 0 < 16777216) }
    ensures { Packs (numbers rows.now) 256 (256 + count) tab.old tab.new }
{
    for e in 0..count {
        put_number(tab, FIRSTS + e, rows.first(e));
    }
}
