// Inputs judged: each cell is good, and of its type's kind, range and enum.
ghost use Rattle.std.specs.Prelude.{◌≡◌, List, ℕ, ◌+◌, ◌*◌, ◌≤◌, T, length, take, drop};
ghost use Rattle.ol_spec.specs.Lists.{member, all_of};
ghost use Rattle.ol_spec.specs.Within.{name_fits};
ghost use Rattle.ol_spec.specs.Encode.{encode, name_bytes, section_bytes};
ghost use Rattle.ol_spec.proofs.RoundTrip.Parts.{Here};
ghost use Rattle.ol_tables.specs.At.{file_at};
ghost use Rattle.ol_state.specs.Inputs.{EnumAt, Typed, good_input, good_some};

use ol_spec::Value;
use ol_tables::bytes::{byte, name};
use ol_value::cell::{good_cell, read_cell};
use ol_value::types::in_type;

// Where enum e stands.
fn enum_at(file: &[u8], e: usize) -> usize
    requires { (e ≤ 255) × (encode (file_at file.now) ≡ file.now) }
    ensures { EnumAt (file_at file.now) file.now e result }
{
    let mut pos: usize = 2;
    for _ in 0..e {
        pos += 1 + 2 * byte(file, pos);
    }
    pos
}

// Whether a name is a variant of the enum at `at`.
fn has_variant(file: &[u8], at: usize, v: usize) -> bool
    requires { at ≤ 131072 }
    ensures { (vs : List ℕ) → Here file.now at (section_bytes name_bytes vs) → T (all_of name_fits vs) → result ≡ member v vs }
{
    let n = byte(file, at);
    (0..n).any(|j| v == name(file, at + 1 + 2 * j))
}

// Whether the cell at an offset is good and of the type with this code and enum's number.
fn judge_input(file: &[u8], code: usize, e: usize, cells: &[u8], at: usize) -> bool
    requires { Typed (file_at file.now) file.now code e × (at + 9 ≤ length cells.now) }
    ensures { result ≡ good_input (file_at file.now) code e (take 9 (drop at cells.now)) }
{
    if !good_cell(cells, at) {
        return false;
    }
    let v = read_cell(cells, at);
    in_type(code as u8, v)
        && match v {
            Value::Enum(w) => has_variant(file, enum_at(file, e), usize::from(w)),
            _ => true,
        }
}

// Whether so many cells are good and of the type with this code and enum's number.
pub(crate) fn judge_inputs(file: &[u8], code: usize, e: usize, count: usize, cells: &[u8]) -> bool
    requires { Typed (file_at file.now) file.now code e × (9 * count ≤ length cells.now) }
    ensures { result ≡ good_some (file_at file.now) code e count cells.now }
{
    for i in 0..count {
        if !judge_input(file, code, e, cells, 9 * i) {
            return false;
        }
    }
    true
}
