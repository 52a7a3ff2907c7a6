// The operators on values: document 01's `eval_binary`, and its unary operators. Both sides have been
// evaluated.
ghost use Rattle.std.specs.Prelude.{◌≡◌, ℕ, ℤ, false, eqb, FitsSigned};
ghost use Rattle.std.specs.Int.{w64};
ghost use Rattle.std.specs.Option.{SomeIff};
ghost use Rattle.ol_spec.specs.Operators.{bool_out, exact, bools, ints, reals, names, unlike, on_pair, unary_of, binary_of};
ghost use Rattle.ol_value.specs.Codes.{as_double, one_of, op_of, unary_by, binary_by};

use crate::codes::{Binary, Unary};
use crate::reals::Real;
use ol_real::f32_to_f64;
use ol_spec::{Cause, Outcome, Value};

// A truth value as an outcome.
fn bool_out(b: bool) -> Outcome
    ensures { result ≡ bool_out b }
{
    Outcome::Value(Value::Bool(b))
}

// An integer result, or an overflow outside 64 bits.
fn exact(n: Option<i64>) -> Outcome
    ensures { (z : ℤ) → SomeIff n (FitsSigned w64 z) z → result ≡ exact z }
{
    match n {
        Some(n) => Outcome::Value(Value::Int(n)),
        None => Outcome::Overflow,
    }
}

// And to Neq of two Bools.
#[tactic(auto, unfolding(ol_spec::specs::Operators::on_pair))]
fn eval_bools(op: Binary, a: bool, b: bool) -> Outcome
    ensures { result ≡ on_pair (op_of op) (bools a b) }
{
    match op {
        Binary::And => bool_out(a & b),
        Binary::Or => bool_out(a | b),
        Binary::Xor => bool_out(a ^ b),
        Binary::Implies => bool_out(!a | b),
        Binary::Eq => bool_out(a == b),
        Binary::Neq => bool_out(a != b),
        _ => Outcome::Failure(Cause::Other),
    }
}

// Eq to Shr of two integers. Division is toward zero, -7 / 2 is -3, and Mod has the dividend's sign: a zero
// divisor is out of range, and the lowest number by -1 overflows. Shl drops bits past the 64th, and Shr
// copies the sign bit: a count outside 0 to 63 is out of range.
#[tactic(auto, unfolding(ol_spec::specs::Operators::on_pair))]
fn eval_ints(op: Binary, a: i64, b: i64) -> Outcome
    ensures { result ≡ on_pair (op_of op) (ints a b) }
{
    match op {
        Binary::Eq => bool_out(a == b),
        Binary::Neq => bool_out(a != b),
        Binary::Lt => bool_out(a < b),
        Binary::Le => bool_out(a <= b),
        Binary::Gt => bool_out(a > b),
        Binary::Ge => bool_out(a >= b),
        Binary::Add => exact(a.checked_add(b)),
        Binary::Sub => exact(a.checked_sub(b)),
        Binary::Mul => exact(a.checked_mul(b)),
        Binary::Div | Binary::Mod if b == 0 => Outcome::Failure(Cause::Range),
        Binary::Div => exact(a.checked_div(b)),
        Binary::Mod => exact(a.checked_rem(b)),
        Binary::BitAnd => Outcome::Value(Value::Int(a & b)),
        Binary::BitOr => Outcome::Value(Value::Int(a | b)),
        Binary::BitXor => Outcome::Value(Value::Int(a ^ b)),
        Binary::Shl | Binary::Shr if !(0..64).contains(&b) => Outcome::Failure(Cause::Range),
        Binary::Shl => Outcome::Value(Value::Int(a << b)),
        Binary::Shr => Outcome::Value(Value::Int(a >> b)),
        _ => Outcome::Failure(Cause::Other),
    }
}

// Eq to Div of two reals of one format, rounded once. Beside a NaN each comparison but Neq is false, and a
// zero divisor is out of range, -0.0 too.
#[tactic(auto, unfolding(ol_spec::specs::Operators::on_pair))]
fn eval_reals<T: Real>(op: Binary, x: T, y: T) -> Outcome
    ensures { result ≡ on_pair (op_of op) (reals T.format (T.number x) (T.number y)) }
{
    match op {
        Binary::Eq => bool_out(x == y),
        Binary::Neq => bool_out(x != y),
        Binary::Lt => bool_out(x < y),
        Binary::Le => bool_out(x <= y),
        Binary::Gt => bool_out(x > y),
        Binary::Ge => bool_out(x >= y),
        Binary::Add => Outcome::Value((x + y).value()),
        Binary::Sub => Outcome::Value((x - y).value()),
        Binary::Mul => Outcome::Value((x * y).value()),
        Binary::Div if y == T::zero() => Outcome::Failure(Cause::Range),
        Binary::Div => Outcome::Value((x / y).value()),
        _ => Outcome::Failure(Cause::Other), // Mod too, whatever the divisor
    }
}

// Eq and Neq, of operands that no other operator takes: two names, or unlike kinds, which are unequal.
#[tactic(auto, unfolding(ol_spec::specs::Operators::on_pair))]
fn eval_same(op: Binary, same: bool) -> Outcome
    ensures of_names { (v w : ℕ) → same ≡ eqb v w → result ≡ on_pair (op_of op) (names v w) }
    ensures of_unlike { same ≡ false → result ≡ on_pair (op_of op) unlike }
{
    match op {
        Binary::Eq => bool_out(same),
        Binary::Neq => bool_out(!same),
        _ => Outcome::Failure(Cause::Other),
    }
}

// A real as a double.
fn as_double(v: Value) -> Option<f64>
    ensures { result ≡ as_double v }
{
    match v {
        Value::Float(x) => Some(x),
        Value::Float32(x) => Some(f32_to_f64(x)),
        _ => None,
    }
}

// An operator on two operands, by their kinds: two singles are singles, other reals are doubles.
fn eval_pair(op: Binary, l: Value, r: Value) -> Outcome
    ensures { result ≡ binary_of (op_of op) l r }
{
    match (l, r) {
        (Value::Bool(a), Value::Bool(b)) => eval_bools(op, a, b),
        (Value::Int(a), Value::Int(b)) => eval_ints(op, a, b),
        (Value::Float32(x), Value::Float32(y)) => eval_reals(op, x, y),
        (Value::Enum(v), Value::Enum(w)) => eval_same(op, v == w),
        // one call for doubles, so that it is put in place
        _ => match (as_double(l), as_double(r)) {
            (Some(x), Some(y)) => eval_reals(op, x, y),
            _ => eval_same(op, false),
        },
    }
}

// Document 01's `eval_binary`, by the operator's code.
pub fn eval_binary(op: u8, l: Value, r: Value) -> Outcome
    ensures { result ≡ binary_by op l r }
{
    match Binary::try_from(op) {
        Ok(op) => eval_pair(op, l, r),
        Err(cause) => Outcome::Failure(cause),
    }
}

// Not, of a Bool, and Neg, of a number: the lowest integer overflows.
#[tactic(auto, unfolding(ol_spec::specs::Operators::unary_of, ol_spec::specs::Real::neg_r))]
fn eval_one(op: Unary, v: Value) -> Outcome
    ensures { result ≡ unary_of (one_of op) v }
{
    match (op, v) {
        (Unary::Not, Value::Bool(b)) => bool_out(!b),
        (Unary::Neg, Value::Int(a)) => exact(a.checked_neg()),
        (Unary::Neg, Value::Float(x)) => Outcome::Value(Value::Float(-x)),
        (Unary::Neg, Value::Float32(x)) => Outcome::Value(Value::Float32(-x)),
        _ => Outcome::Failure(Cause::Other),
    }
}

// A unary operator by its code: Not (0) and Neg (1).
pub fn eval_unary(op: u8, v: Value) -> Outcome
    ensures { result ≡ unary_by op v }
{
    match Unary::try_from(op) {
        Ok(op) => eval_one(op, v),
        Err(cause) => Outcome::Failure(cause),
    }
}
