// Cells: a value as nine bytes, its tag and then a 64-bit payload, big-endian.
ghost use Rattle.std.specs.Prelude.{◌≡◌, ◌++◌, ◌+◌, ◌≤◌, length, take, drop};
ghost use Rattle.ol_spec.specs.Lists.{same};
ghost use Rattle.ol_spec.specs.Numbers.{number_of};
ghost use Rattle.ol_spec.specs.Cell.{tag, payload, cell, value_by, value_of};

use ol_real::{f32_bits, f32_of_bits, f64_bits, f64_of_bits};
use ol_spec::Value;

// The 64-bit number at an offset.
fn read_number(bytes: &[u8], at: usize) -> u64
    requires { at + 8 ≤ length bytes.now }
    ensures { result ≡ number_of 0 (take 8 (drop at bytes.now)) }
{
    let mut eight = [0; 8];
    eight.copy_from_slice(&bytes[at..at + 8]);
    u64::from_be_bytes(eight)
}

// A value's tag: 0 Bool, 1 Int, 2 Float, 3 Float32, 4 Enum. The numbers stand here and in value_by
// alone, each beside its variant, so names for them would say no more.
fn tag_of(v: Value) -> u8
    ensures { result ≡ tag v }
{
    match v {
        Value::Bool(_) => 0,
        Value::Int(_) => 1,
        Value::Float(_) => 2,
        Value::Float32(_) => 3,
        Value::Enum(_) => 4,
    }
}

// A value's payload.
pub fn payload_of(v: Value) -> u64
    ensures { result ≡ payload v }
{
    match v {
        Value::Bool(b) => u64::from(b),
        Value::Int(i) => i.cast_unsigned(),
        Value::Float(x) => f64_bits(x),
        Value::Float32(x) => u64::from(f32_bits(x)),
        Value::Enum(w) => u64::from(w),
    }
}

// The value of a tag and a payload; a tag above 4 is read as 4, and its cell is bad.
fn value_by(t: u8, p: u64) -> Value
    ensures { result ≡ value_by t p }
{
    match t {
        0 => Value::Bool(p == 1),
        1 => Value::Int(p.cast_signed()),
        2 => Value::Float(f64_of_bits(p)),
        3 => Value::Float32(f32_of_bits((p % 4294967296) as u32)),
        _ => Value::Enum((p % 65536) as u16),
    }
}

// The value of the nine bytes at an offset. It is put into its callers: measured faster.
#[inline(always)]
pub fn read_cell(bytes: &[u8], at: usize) -> Value
    requires { at + 9 ≤ length bytes.now }
    ensures { result ≡ value_of (take 9 (drop at bytes.now)) }
{
    let p = read_number(bytes, at + 1);
    value_by(bytes[at], p)
}

// Whether the nine bytes at an offset are their value's. An Enum's name is the caller's to look up.
pub fn good_cell(bytes: &[u8], at: usize) -> bool
    requires { at + 9 ≤ length bytes.now }
    ensures { result ≡ same (cell (value_of (take 9 (drop at bytes.now)))) (take 9 (drop at bytes.now)) }
{
    let t = bytes[at];
    let p = read_number(bytes, at + 1);
    let v = value_by(t, p);
    // two tests and one branch: with && a cycle of feeder30 was counted at 104,359 instructions, without at 103,889
    let like = tag_of(v) == t;
    let equal = payload_of(v) == p;
    like & equal
}

// Writes a value's cell at an offset, and no other byte.
pub fn write_cell(v: Value, out: &mut [u8], at: usize)
    requires { at + 9 ≤ length out.old }
    ensures { out.new ≡ take at out.old ++ (cell v ++ drop (at + 9) out.old) }
{
    out[at] = tag_of(v);
    out[at + 1..at + 9].copy_from_slice(&payload_of(v).to_be_bytes());
}
