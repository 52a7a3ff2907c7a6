// The leaves of ol_value, one operation a call, for bench/values to time beside the same operations in Rust.
#![tactic(auto)]

ghost use Rattle.std.specs.Prelude.{◌≡◌, ◌++◌, ◌<◌, ◌≤◌, length, drop};
ghost use Rattle.ol_spec.specs.Cell.{cell, payload};
ghost use Rattle.ol_spec.specs.Types.{fit, cast_to};
ghost use Rattle.ol_value.specs.Codes.{binary_by, ty_of};
ghost use Rattle.value_bench.specs.Digests.{first_value, digest_of};

use ol_spec::{Outcome, Value};
use ol_value::cell::{payload_of, read_cell, write_cell};
use ol_value::operators::eval_binary;
use ol_value::types::{cast_value, fit_to};

// The value of the first nine bytes; false where there are fewer.
fn first_value(cells: &[u8]) -> Value
    ensures { result ≡ first_value cells.now }
{
    if cells.len() < 9 {
        Value::Bool(false)
    } else {
        read_cell(cells, 0)
    }
}

// A value's payload; 1 for a failure of any cause, 2 for an overflow.
fn digest(o: Outcome) -> u64
    ensures { result ≡ digest_of o }
{
    match o {
        Outcome::Value(v) => payload_of(v),
        Outcome::Failure(_) => 1,
        Outcome::Overflow => 2,
    }
}

// Reads a cell.
#[unsafe(no_mangle)]
pub extern "C" fn ol_value_decode(cells: &[u8]) -> u64
    ensures { result ≡ payload (first_value cells.now) }
{
    payload_of(first_value(cells))
}

// Reads a cell and writes it back; whether there are nine bytes.
#[unsafe(no_mangle)]
pub extern "C" fn ol_value_encode(cells: &mut [u8]) -> u64
    ensures short { length cells.old < 9 → (result ≡ 0) × (cells.new ≡ cells.old) }
    ensures written { 9 ≤ length cells.old → (result ≡ 1) × (cells.new ≡ cell (first_value cells.old) ++ drop 9 cells.old) }
{
    if cells.len() < 9 {
        0
    } else {
        let v = first_value(cells);
        write_cell(v, cells, 0);
        1
    }
}

// Adds a cell's value to itself.
#[unsafe(no_mangle)]
pub extern "C" fn ol_value_add(cells: &[u8]) -> u64
    ensures { result ≡ digest_of (binary_by 10 (first_value cells.now) (first_value cells.now)) }
{
    let v = first_value(cells);
    digest(eval_binary(10, v, v))
}

// Fits a cell's value to Int16.
#[unsafe(no_mangle)]
pub extern "C" fn ol_value_fit(cells: &[u8]) -> u64
    ensures { result ≡ payload (fit (ty_of 2 0) (first_value cells.now)) }
{
    payload_of(fit_to(2, first_value(cells)))
}

// Casts a cell's value to Int32.
#[unsafe(no_mangle)]
pub extern "C" fn ol_value_cast(cells: &[u8]) -> u64
    ensures { result ≡ digest_of (cast_to (ty_of 3 0) (first_value cells.now)) }
{
    digest(cast_value(3, first_value(cells)))
}
