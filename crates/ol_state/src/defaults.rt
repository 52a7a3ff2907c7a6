// The started byte and the default cells of a fresh record, by the tables.
ghost use Rattle.std.specs.Prelude.{◌≡◌, ◌∷◌, ◌++◌, ◌+◌, ◌*◌, ◌≤◌, ◌<◌, length, drop};
ghost use Rattle.ol_state.specs.Defaults.{default_cell, default_cells, width_at, defaults_at};

use crate::types::type_at;
use ol_tables::table::{column, first_variant, types_of};
use ol_tables::tables::VARIABLES;
use ol_value::cell::write_cell;
use ol_value::types::default_value;

// The cell of a type's default; `first` is an enum's first variant.
pub(crate) fn put_default(code: usize, first: usize, out: &mut [u8])
    requires { (code < 256) × (9 ≤ length out.old) }
    ensures { out.new ≡ default_cell code first ++ drop 9 out.old }
{
    let v = default_value(code as u8, (first % 65536) as u16);
    write_cell(v, out, 0);
}

// So many of them.
fn put_defaults(code: usize, first: usize, count: usize, out: &mut [u8])
    requires { (code < 256) × (9 * count ≤ length out.old) }
    ensures { out.new ≡ default_cells code first count ++ drop (9 * count) out.old }
{
    for i in 0..count {
        put_default(code, first, &mut out[9 * i..]);
    }
}

// The default cells of node k's variables. `k ≤ 65535` is a clause, here and in three functions: a node's number is
// multiplied to find its row, and a narrower type would make each caller convert what it read.
pub fn write_defaults(tab: &[u8], k: usize, out: &mut [u8])
    requires { (k ≤ 65535) × (9 * width_at tab.now k ≤ length out.old) }
    ensures { out.new ≡ defaults_at tab.now k ++ drop (9 * width_at tab.now k) out.old }
{
    let n = column(tab, k, VARIABLES);
    let types = types_of(tab, k);
    let mut cell: usize = 0;
    for i in 0..n {
        let t = type_at(tab, types + 2 * i);
        let first = first_variant(tab, t.number);
        put_defaults(t.code, first, t.cells, &mut out[9 * cell..]);
        cell += t.cells;
    }
}

// The started byte 0 and the default cells of node k's variables.
pub fn write_own(tab: &[u8], k: usize, out: &mut [u8])
    requires { (k ≤ 65535) × (1 + 9 * width_at tab.now k ≤ length out.old) }
    ensures { out.new ≡ 0 ∷ defaults_at tab.now k ++ drop (1 + 9 * width_at tab.now k) out.old }
{
    out[0] = 0;
    write_defaults(tab, k, &mut out[1..]);
}
