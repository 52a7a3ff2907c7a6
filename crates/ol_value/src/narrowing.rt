// What each integer type makes of numbers.
ghost use Rattle.std.specs.Prelude.{◌≡◌, ◌<◌, ◌≤◌, ◌^◌};
ghost use Rattle.ol_spec.specs.Numbers.{residue, signed};
ghost use Rattle.ol_spec.specs.Types.{narrow, in_range};
ghost use Rattle.ol_value.specs.Codes.{int_ty_of, Narrow};

use crate::codes::IntType;

// The b bits of i in two's complement.
fn residue_of(b: u8, i: i64) -> u64
    requires { b ≤ 32 }
    ensures { result ≡ residue b i }
{
    i.cast_unsigned() % (1 << b)
}

// The b bits of i, read as signed: shifted up until the last is the sign, and back.
fn signed_of(b: u8, i: i64) -> i64
    requires { (0 < b) × (b ≤ 32) }
    ensures { result ≡ signed b (residue b i) }
{
    let rest = 64 - b;
    (i << rest) >> rest
}

// Document 01's `narrow_int`: a number as an integer type holds it.
pub(crate) fn narrow_int(t: IntType, i: i64) -> i64
    requires { Narrow (int_ty_of t) }
    ensures { result ≡ narrow (int_ty_of t) i }
{
    match t {
        IntType::Signed(b) => signed_of(b, i),
        IntType::Unsigned(b) => residue_of(b, i) as i64,
        IntType::Whole => i,
    }
}

// Whether a number is in the range of an integer type.
pub(crate) fn in_range(t: IntType, i: i64) -> bool
    requires { Narrow (int_ty_of t) }
    ensures { result ≡ in_range (int_ty_of t) i }
{
    match t {
        IntType::Signed(b) => {
            let half = 1 << (b - 1);
            (-half..half).contains(&i)
        }
        IntType::Unsigned(b) => (0..1 << b).contains(&i),
        IntType::Whole => true,
    }
}
