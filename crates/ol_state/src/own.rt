// A record's started byte and cells.
ghost use Rattle.std.specs.Prelude.{◌≡◌, List, ℕ, ◌+◌, ◌*◌, ◌≤◌, ◌<◌, length, take};
ghost use Rattle.ol_spec.specs.Lists.{same};
ghost use Rattle.ol_tables.specs.Tables.{Tells, count_at};
ghost use Rattle.ol_tables.specs.Table.{tab_of};
ghost use Rattle.ol_state.specs.Defaults.{default_cells, width_at, defaults_at};
ghost use Rattle.ol_state.specs.Own.{good_bytes};

use crate::cells::good_cells;
use crate::defaults::put_default;
use crate::types::type_at;
use ol_tables::table::{cells_of, column, first_variant, types_of};
use ol_tables::tables::VARIABLES;

// Whether so many cells are the default of a type; `first` is an enum's first variant.
fn are_default(code: usize, first: usize, count: usize, cells: &[u8]) -> bool
    requires { (code < 256) × (9 * count ≤ length cells.now) }
    ensures { result ≡ same (take (9 * count) cells.now) (default_cells code first count) }
{
    let mut default = [0u8; 9];
    put_default(code, first, &mut default);
    for i in 0..count {
        if cells[9 * i..9 * i + 9] != default[..] {
            return false;
        }
    }
    true
}

// Whether the cells are the defaults of node k's variables. Variable by variable: how many cells there are is known at the run only, and there is no heap for all their defaults.
fn are_defaults(tab: &[u8], k: usize, cells: &[u8]) -> bool
    requires { (k ≤ 65535) × (9 * width_at tab.now k ≤ length cells.now) }
    ensures { result ≡ same (take (9 * width_at tab.now k) cells.now) (defaults_at tab.now k) }
{
    let n = column(tab, k, VARIABLES);
    let types = types_of(tab, k);
    let mut cell: usize = 0;
    for i in 0..n {
        let t = type_at(tab, types + 2 * i);
        let first = first_variant(tab, t.number);
        if !are_default(t.code, first, t.cells, &cells[9 * cell..]) {
            return false;
        }
        cell += t.cells;
    }
    true
}

// Whether a record's own bytes are good: its started byte, its cells, and the defaults of node k where it is not started. `tab`, `variants`
// and `k` are no struct, here and in `good_record`: `k` is another at each call site, where it would be made anew.
pub(crate) fn good_own(tab: &[u8], variants: &[u8], k: usize, r: &[u8]) -> bool
    requires { (k ≤ 65535) × (count_at (tab_of tab.now) k 3 ≡ width_at tab.now k) × (1 + 9 * width_at tab.now k ≤ length r.now) }
    ensures { (names : List ℕ) → Tells variants.now names → result ≡ good_bytes names (defaults_at tab.now k) (width_at tab.now k) r.now }
{
    let started = r[0];
    started <= 1
        && good_cells(variants, cells_of(tab, k, 3), &r[1..])
        && (started != 0 || are_defaults(tab, k, &r[1..]))
}
