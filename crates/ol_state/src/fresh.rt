// Fresh records.
ghost use Rattle.std.specs.Prelude.{◌≡◌, List, ◌+◌, length};
ghost use Rattle.ol_spec.specs.declared.Value.{Value};
ghost use Rattle.ol_spec.specs.Step.{fresh_at};
ghost use Rattle.ol_spec.specs.State.{globals_of};
ghost use Rattle.ol_tables.specs.At.{file_at};
ghost use Rattle.ol_tables.specs.Table.{tab_of, rows_of};
ghost use Rattle.ol_state.specs.Known.{Counted, Sited};

use crate::defaults::write_own;
use crate::sites::call_sites;
use ol_tables::bytes::byte;
use ol_tables::kind::NodeKind;
use ol_tables::table::{cells_of, column};
use ol_tables::tables::{KIND, PLACE, SIZE};

// The number of the main node, the last one: the nodes' count stands before the first node.
pub(crate) fn main_node(file: &[u8], tab: &[u8]) -> usize
    requires { Counted (file_at file.now) file.now (rows_of tab.now) }
    ensures { result + 1 ≡ length (file_at file.now).nodes }
{
    byte(file, column(tab, 0, PLACE) - 1) - 1
}

// Writes the fresh record of a call site of node k, which is all of `out`: byte 0 and default cells,
// then the fresh records of its own call sites. Only an Operator's call site has one. `file`, `tab` and `k` are
// no struct, here, in `call_sites` and in `good_record`: `k` is another at each call site, where it would be made anew.
pub fn write_fresh(file: &[u8], tab: &[u8], k: usize, out: &mut [u8])
    requires { Sited (file_at file.now) file.now (tab_of tab.now) (rows_of tab.now) k out.old }
    ensures { (vs : List Value) → out.new ≡ fresh_at (globals_of (file_at file.now) vs) (length (file_at file.now).nodes) k }
{
    if NodeKind::Operator.is(column(tab, k, KIND)) {
        write_own(tab, k, out);
        let mut used = 1 + 9 * cells_of(tab, k, 3);
        for c in call_sites(file, tab, k) {
            let end = used + column(tab, c, SIZE);
            write_fresh(file, tab, c, &mut out[used..end]);
            used = end;
        }
    }
}
