// Types: their defaults and kinds, and what storing and casting make of a value. An enum's number is looked up by the caller.
// A type is given by its code in the file, and any byte is taken. Where a value is matched too, the code is decoded in the value's arm: a Bool and an Enum ask
// for none. Decoded before, most calls were counted at 10 to 25 instructions more, and a cycle of K at 0.3%.
ghost use Rattle.std.specs.Prelude.{◌≡◌, List, [], ℕ, get_or};
ghost use Rattle.ol_spec.specs.Real.{by_precision};
ghost use Rattle.ol_spec.specs.Types.{default, fit_single, fit_double, fit};
ghost use Rattle.ol_spec.specs.Types.{cast_int, cast_real, cast_to};
ghost use Rattle.ol_value.specs.Codes.{int_ty_of, Narrow, ty_of, in_kind};

use crate::codes::{DataType, IntType};
use crate::narrowing::{in_range, narrow_int};
use crate::reals::Real;
use ol_real::{f32_to_f64, f32_to_i64, f64_to_f32, f64_to_i64, i64_to_f32, i64_to_f64};
use ol_spec::{Cause, Outcome, Value};

// Document 01's `fit_to`: a value as a variable of the type holds it. Each variant is made again: a value
// that was passed on whole was measured to make the load behind it wait (docs/PERFORMANCE.md).
// It is put into its callers: measured faster.
#[inline(always)]
#[tactic(auto, unfolding(ol_spec::specs::Types::fit))]
pub fn fit_to(code: u8, v: Value) -> Value
    ensures { (e : ℕ) → result ≡ fit (ty_of code e) v }
{
    match v {
        Value::Bool(b) => Value::Bool(b),
        Value::Int(i) => match DataType::from(code) {
            DataType::Int(t) => Value::Int(narrow_int(t, i)),
            DataType::Float32 => Value::Float32(i64_to_f32(i)),
            DataType::Float64 => Value::Float(i64_to_f64(i)),
            DataType::Bool | DataType::Char | DataType::Enum => Value::Int(i),
        },
        Value::Float(x) => match DataType::from(code) {
            DataType::Float32 => Value::Float32(f64_to_f32(x)),
            _ => Value::Float(x),
        },
        Value::Float32(x) => match DataType::from(code) {
            DataType::Float64 => Value::Float(f32_to_f64(x)),
            _ => Value::Float32(x),
        },
        Value::Enum(w) => Value::Enum(w),
    }
}

// A cast to an integer type.
fn cast_int(t: IntType, v: Value) -> Outcome
    requires { Narrow (int_ty_of t) }
    ensures { result ≡ cast_int (int_ty_of t) v }
{
    let i = match v {
        Value::Int(i) => i,
        Value::Float(x) => f64_to_i64(x),
        Value::Float32(x) => f32_to_i64(x),
        Value::Bool(_) | Value::Enum(_) => return Outcome::Failure(Cause::Other),
    };
    Outcome::Value(Value::Int(narrow_int(t, i)))
}

// A cast to a real.
fn cast_real<T: Real>(v: Value) -> Outcome
    ensures { result ≡ cast_real (by_precision T.format fit_single fit_double) v }
{
    let x = match v {
        Value::Int(i) => T::from_int(i),
        Value::Float(x) => T::from_double(x),
        Value::Float32(x) => T::from_single(x),
        Value::Bool(_) | Value::Enum(_) => return Outcome::Failure(Cause::Other),
    };
    Outcome::Value(x.value())
}

// Document 01's `cast_value`.
#[tactic(auto, unfolding(ol_spec::specs::Types::cast_to))]
pub fn cast_value(code: u8, v: Value) -> Outcome
    ensures { (e : ℕ) → result ≡ cast_to (ty_of code e) v }
{
    match DataType::from(code) {
        DataType::Int(t) => cast_int(t, v),
        DataType::Float32 => cast_real::<f32>(v),
        DataType::Float64 => cast_real::<f64>(v),
        DataType::Bool | DataType::Char | DataType::Enum => Outcome::Failure(Cause::Other),
    }
}

// What a variable of the type holds in a fresh record; `first` is an enum's first variant.
pub fn default_value(code: u8, first: u16) -> Value
    ensures { (enums : List (List ℕ)) (e : ℕ) → get_or (get_or enums e []) 0 0 ≡ first → result ≡ default enums (ty_of code e) }
{
    match DataType::from(code) {
        DataType::Bool => Value::Bool(false),
        DataType::Int(_) | DataType::Char => Value::Int(0),
        DataType::Float32 => Value::Float32(0.0),
        DataType::Float64 => Value::Float(0.0),
        DataType::Enum => Value::Enum(first),
    }
}

// Whether an input's value is of its type's kind and range. The caller looks an enum's name up.
pub fn in_type(code: u8, v: Value) -> bool
    ensures { (e : ℕ) → result ≡ in_kind (ty_of code e) v }
{
    match v {
        Value::Bool(_) => matches!(DataType::from(code), DataType::Bool),
        Value::Int(i) => match DataType::from(code) {
            DataType::Int(t) => in_range(t, i),
            DataType::Char => (0..256).contains(&i),
            _ => false,
        },
        Value::Float(_) => matches!(DataType::from(code), DataType::Float64),
        Value::Float32(_) => matches!(DataType::from(code), DataType::Float32),
        Value::Enum(_) => matches!(DataType::from(code), DataType::Enum),
    }
}
