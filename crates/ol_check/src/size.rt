// Faults 13 and 14, and the lengths of records.
ghost use Rattle.std.specs.Prelude.{◌≡◌, ◌≤◌, ◌<◌, ◌+◌, min, length};
ghost use Rattle.ol_spec.specs.Admission.{fault14};
ghost use Rattle.ol_tables.specs.At.{file_at};
ghost use Rattle.ol_tables.specs.Numbers.{numbers};
ghost use Rattle.ol_check.specs.Founds.{place_of};
ghost use Rattle.ol_check.specs.Records.{site_b, record_by};
ghost use Rattle.ol_check.specs.NodesJudged.{RowsReady};
ghost use Rattle.ol_check.specs.Sizes.{StateSized};

use ol_tables::bytes::byte;
use ol_tables::form::Form;
use ol_tables::kind::NodeKind;
use ol_tables::tables::FileRows;

// Fault 14: the last node is no Operator.
pub fn not_operator(file: &[u8], rows: &FileRows, nodes: usize) -> Option<usize>
    requires { RowsReady file.now (numbers rows.now) nodes × (1 ≤ nodes) }
    ensures { place_of result ≡ fault14 (file_at file.now) }
{
    let last = rows.node(nodes - 1);
    if NodeKind::Operator.is(last.kind) {
        None
    } else {
        Some(last.place)
    }
}

// A sum that stops at 65536.
pub(crate) fn capped(a: usize, b: usize) -> usize
    ensures { result ≡ min (a + b) 65536 }
{
    a.saturating_add(b).min(65536)
}

// The bytes of the record of the expression at `at`, if it is a call.
pub(crate) fn site(file: &[u8], rows: &FileRows, nodes: usize, at: usize) -> usize
    requires { (at < length file.now) × (nodes ≤ 32) }
    ensures { result ≡ site_b file.now (numbers rows.now) nodes at }
{
    if !Form::Call.is_at(file, at) {
        return 0;
    }
    let c = byte(file, at + 1);
    if c < nodes { rows.node(c).size } else { 0 }
}

// The bytes of the record at a call site of a node of this kind, whose instance has so many.
pub(crate) fn record_size(kind: usize, size: usize) -> usize
    ensures { result ≡ record_by kind size }
{
    if NodeKind::Operator.is(kind) { size } else { 0 }
}

// The state's length, up to 65536: so many cells of the constants, then an instance of the last node, which has `main` bytes.
pub fn state_size(cells: usize, main: usize) -> usize
    requires { cells ≤ 65536 }
    ensures { StateSized cells main result }
{
    capped(9 * cells, main)
}
