// Cells judged.
ghost use Rattle.std.specs.Prelude.{◌≡◌, List, ℕ, ◌+◌, ◌*◌, ◌≤◌, length, take, drop};
ghost use Rattle.ol_spec.specs.Cell.{is_variant, good_cell, good_cells};
ghost use Rattle.ol_tables.specs.Tables.{Tells};

use ol_spec::Value;
use ol_tables::bytes::byte;
use ol_tables::tables::VARIANT;
use ol_value::cell::{good_cell, read_cell};

// Whether an Enum's name is a variant's; another value has none. There is no heap, and the table by name
// is on the caller's stack: it has a byte for each name, of a variant 255. Which names it tells is a variable of
// the clause, here and in three functions: the bytes do not tell their order.
fn is_variant(variants: &[u8], v: Value) -> bool
    ensures { (names : List ℕ) → Tells variants.now names → result ≡ is_variant names v }
{
    match v {
        Value::Enum(w) => byte(variants, usize::from(w)) == VARIANT,
        _ => true,
    }
}

// Whether the cell at an offset is good.
fn judge_cell(variants: &[u8], cells: &[u8], at: usize) -> bool
    requires { at + 9 ≤ length cells.now }
    ensures { (names : List ℕ) → Tells variants.now names → result ≡ good_cell names (take 9 (drop at cells.now)) }
{
    good_cell(cells, at) && is_variant(variants, read_cell(cells, at))
}

// Whether n cells are good.
pub(crate) fn good_cells(variants: &[u8], n: usize, cells: &[u8]) -> bool
    requires { 9 * n ≤ length cells.now }
    ensures { (names : List ℕ) → Tells variants.now names → result ≡ good_cells names n cells.now }
{
    for i in 0..n {
        if !judge_cell(variants, cells, 9 * i) {
            return false;
        }
    }
    true
}
