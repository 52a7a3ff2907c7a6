// Outcomes, taken apart outside the functions of evaluation that call each other: there each match would multiply the goals of them all.
ghost use Rattle.std.specs.Prelude.{◌≡◌, true, ℕ};
ghost use Rattle.std.proofs.Math.Option.{Option};
ghost use Rattle.ol_spec.specs.Cell.{cell, value_of};
ghost use Rattle.ol_spec.specs.Types.{cast_to};
ghost use Rattle.ol_spec.specs.declared.Outcome.{Outcome};
ghost use Rattle.ol_spec.specs.declared.Value.{Value};
ghost use Rattle.ol_spec.specs.Eval.{or_failure, several, then_out, common_real, kind_of_type, is_double?};
ghost use Rattle.ol_value.specs.Codes.{ty_of, unary_by};
ghost use Rattle.ol_frame.specs.Outcomes.{ThenBy, ending_of, done_of, binary_out, test_of, untested_of, runs_of, overflow_of, drop_out, single_of, common_out, kind_of, outcome_kind};

use ol_real::f32_to_f64;
use ol_spec::{Cause, Outcome, Value};
use ol_value::codes::DataType;
use ol_value::operators::{eval_binary, eval_unary};
use ol_value::types::cast_value;

// How several expressions, a call, an equation or a run of equations end: with values, at a failure of some cause, at an overflow. Three ends, as an Outcome's (ol_spec).
#[derive(Clone, Copy)]
pub enum Ending {
    Values,
    Failed(Cause),
    Overflowed,
}

// How an expression counts as real: not, in single or in double precision. In this order: one double makes both double.
#[derive(Clone, Copy, PartialEq, Eq, PartialOrd, Ord)]
pub(crate) enum RealKind {
    NotReal,
    Single,
    Double,
}

// A value, made again from its parts, so that it is moved part by part: measured faster than handing it on whole. It is had back from its cell.
pub fn kept(v: Value) -> Value
    ensures { (result ≡ v) × (value_of (cell v) ≡ v) }
{
    match v {
        Value::Bool(b) => Value::Bool(b),
        Value::Int(i) => Value::Int(i),
        Value::Float(x) => Value::Float(x),
        Value::Float32(x) => Value::Float32(x),
        Value::Enum(w) => Value::Enum(w),
    }
}

// An outcome, made again from its parts: measured faster than handing it on whole.
pub fn same_out(o: Outcome) -> Outcome
    ensures { result ≡ o }
{
    match o {
        Outcome::Value(v) => Outcome::Value(kept(v)),
        Outcome::Failure(c) => Outcome::Failure(c),
        Outcome::Overflow => Outcome::Overflow,
    }
}

// A name's outcome, made again from its parts (measured faster than handing it on whole): a value, or the failure of a name that nobody declared. Of another outcome, which no name has, nothing is promised.
pub fn named_out(o: Outcome) -> Outcome
    ensures { (m : Option Value) → o ≡ or_failure m → result ≡ o }
{
    match o {
        Outcome::Value(v) => Outcome::Value(kept(v)),
        _ => Outcome::Failure(Cause::Other),
    }
}

// How an expression of this outcome ends. No From: an outcome is of one expression and an ending of several, and the definitions have `several` between them.
pub fn end_of(o: Outcome) -> Ending
    ensures { result ≡ ending_of (several o) }
{
    match o {
        Outcome::Value(_) => Ending::Values,
        Outcome::Failure(c) => Ending::Failed(c),
        Outcome::Overflow => Ending::Overflowed,
    }
}

// Whether it is a value.
pub fn done(o: Outcome) -> bool
    ensures { result ≡ done_of o }
{
    matches!(o, Outcome::Value(_))
}

// What f makes of an outcome's value, if it has one; another outcome stays.
pub fn and_then<F: FnOnce(Value) -> Outcome>(o: Outcome, f: F) -> Outcome
    requires { F.IsAlwaysCallable f }
    ensures { ThenBy (F.post f) o result }
{
    match o {
        Outcome::Value(v) => f(v),
        Outcome::Failure(c) => Outcome::Failure(c),
        Outcome::Overflow => Outcome::Overflow,
    }
}

// The outcome of a unary operator on its operand's.
pub fn unary_out(op: u8, o: Outcome) -> Outcome
    ensures { result ≡ then_out (unary_by op) o }
{
    and_then(o, |v| eval_unary(op, v))
}

// The outcome of a cast of an operand's.
pub fn cast_out(code: u8, o: Outcome) -> Outcome
    ensures { (e : ℕ) → result ≡ then_out (cast_to (ty_of code e)) o }
{
    and_then(o, |v| cast_value(code, v))
}

// The outcome of a binary operator on its operands'.
pub fn binary_out(op: u8, l: Outcome, r: Outcome) -> Outcome
    ensures { result ≡ binary_out op l r }
{
    match l {
        Outcome::Value(v) => and_then(r, |w| eval_binary(op, v, w)),
        _ => same_out(l),
    }
}

// The Bool that a condition is, if it is one.
pub fn test_of(o: Outcome) -> Option<bool>
    ensures { result ≡ test_of o }
{
    match o {
        Outcome::Value(Value::Bool(b)) => Some(b),
        _ => None,
    }
}

// What a choice comes to whose condition is no Bool: a value there fails, a failure has its own cause.
pub fn untested(o: Outcome) -> Outcome
    ensures { result ≡ untested_of o }
{
    and_then(o, |_| Outcome::Failure(Cause::Other))
}

// Whether the branch not taken is evaluated: the taken one succeeded, and it contains a call.
pub fn runs(taken: Outcome, has: bool) -> bool
    ensures { result ≡ runs_of taken has }
{
    has && done(taken)
}

// Whether it is an overflow.
pub fn overflowed(o: Outcome) -> bool
    ensures { result ≡ overflow_of o }
{
    matches!(o, Outcome::Overflow)
}

// What a choice comes to where the branch that is not taken was evaluated: its failure is dropped, its overflow is not.
pub fn drop_failure(taken: Outcome, overflow: bool) -> Outcome
    ensures { (other : Outcome) → overflow ≡ overflow_of other → result ≡ drop_out taken other }
{
    if overflow {
        Outcome::Overflow
    } else {
        same_out(taken)
    }
}

// Whether it is a single.
pub(crate) fn is_single(o: Outcome) -> bool
    ensures { result ≡ single_of o }
{
    matches!(o, Outcome::Value(Value::Float32(_)))
}

// A value, widened where it is a single.
fn widened(v: Value) -> Value
    ensures { result ≡ common_real true v }
{
    match v {
        Value::Float32(x) => Value::Float(f32_to_f64(x)),
        _ => v,
    }
}

// A chosen single widens where the other branch, of this kind, counts as double.
pub(crate) fn common_out(kind: RealKind, o: Outcome) -> Outcome
    ensures { result ≡ common_out (is_double? (kind_of kind)) o }
{
    match (o, kind) {
        (Outcome::Value(v), RealKind::Double) => Outcome::Value(widened(v)),
        _ => same_out(o),
    }
}

// The real kind of a type, by its code.
pub(crate) fn kind_of_type(code: u8) -> RealKind
    ensures { (e : ℕ) → kind_of result ≡ kind_of_type (ty_of code e) }
{
    match DataType::from(code) {
        DataType::Float32 => RealKind::Single,
        DataType::Float64 => RealKind::Double,
        DataType::Bool | DataType::Int(_) | DataType::Char | DataType::Enum => RealKind::NotReal,
    }
}

// The real kind of a value.
pub(crate) fn kind_of_outcome(o: Outcome) -> RealKind
    ensures { kind_of result ≡ outcome_kind o }
{
    match o {
        Outcome::Value(Value::Float(_)) => RealKind::Double,
        Outcome::Value(Value::Float32(_)) => RealKind::Single,
        _ => RealKind::NotReal,
    }
}
