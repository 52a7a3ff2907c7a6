// The two formats of the reals, as operators, fits and casts take them.
ghost use Rattle.std.specs.Prelude.{◌≡◌};
ghost use Rattle.std.specs.Ordering.{partial_lt, partial_le, partial_gt, partial_ge};
ghost use Rattle.ol_spec.specs.Real.{Real as Number, Precision, single, double, by_precision, zero_r, of_int, round_single, add_r, sub_r, mul_r, div_r, eq_r, lt_r, le_r};
ghost use Rattle.ol_spec.specs.declared.Value.TheVariants as Val;
ghost use Rattle.ol_value.specs.Orders.{eq_float, lt_float, le_float, gt_float, ge_float, add_float, sub_float, mul_float, div_float};

use ol_real::{f32_to_f64, f64_to_f32, i64_to_f32, i64_to_f64};
use ol_spec::Value;
use std::ops::{Add, Div, Mul, Sub};

// A real of one format, with the operators as IEEE 754 has them.
pub(crate) trait Real: Copy
    + PartialOrd
    + Add<Self, Output = Self>
    + Sub<Self, Output = Self>
    + Mul<Self, Output = Self>
    + Div<Self, Output = Self> {
    // The format, and a real as the definitions have it.
    ghost format: { Precision };

    ghost number: { Self → Number };

    // 0.0.
    fn zero() -> Self
        ensures { number result ≡ zero_r };

    // The nearest real to an integer.
    fn from_int(n: i64) -> Self
        ensures { number result ≡ of_int format n };

    // The nearest real to a double.
    fn from_double(x: f64) -> Self
        ensures { number result ≡ by_precision format (round_single x) x };

    // The same real as a single.
    fn from_single(x: f32) -> Self
        ensures { number result ≡ x };

    // A real as a value.
    fn value(self) -> Value
        ensures { result ≡ by_precision format (Val.Float32 (number self)) (Val.Float (number self)) };

    ghost eq_law: { (x y : Self) → Self.eq x y ≡ eq_r (number x) (number y) };

    ghost lt_law: { (x y : Self) → partial_lt Self.partial_cmp x y ≡ lt_r (number x) (number y) };

    ghost le_law: { (x y : Self) → partial_le Self.partial_cmp x y ≡ le_r (number x) (number y) };

    ghost gt_law: { (x y : Self) → partial_gt Self.partial_cmp x y ≡ lt_r (number y) (number x) };

    ghost ge_law: { (x y : Self) → partial_ge Self.partial_cmp x y ≡ le_r (number y) (number x) };

    ghost can_add_law: { (x y : Self) → Self.can_add x y };

    ghost add_law: { (x y z : Self) → Self.add_gives x y z → number z ≡ add_r format (number x) (number y) };

    ghost can_sub_law: { (x y : Self) → Self.can_sub x y };

    ghost sub_law: { (x y z : Self) → Self.sub_gives x y z → number z ≡ sub_r format (number x) (number y) };

    ghost can_mul_law: { (x y : Self) → Self.can_mul x y };

    ghost mul_law: { (x y z : Self) → Self.mul_gives x y z → number z ≡ mul_r format (number x) (number y) };

    ghost can_div_law: { (x y : Self) → Self.can_div x y };

    ghost div_law: { (x y z : Self) → Self.div_gives x y z → number z ≡ div_r format (number x) (number y) };
}

impl Real for f32 {
    ghost format = { single };

    ghost number = { λ x. x };

    fn zero() -> f32 {
        0.0
    }

    fn from_int(n: i64) -> f32 {
        i64_to_f32(n)
    }

    fn from_double(x: f64) -> f32 {
        f64_to_f32(x)
    }

    fn from_single(x: f32) -> f32 {
        x
    }

    fn value(self) -> Value {
        Value::Float32(self)
    }

    ghost eq_law = { eq_float };

    ghost lt_law = { lt_float };

    ghost le_law = { le_float };

    ghost gt_law = { gt_float };

    ghost ge_law = { ge_float };

    ghost can_add_law = { λ _ _. tt };

    ghost add_law = { add_float single };

    ghost can_sub_law = { λ _ _. tt };

    ghost sub_law = { sub_float single };

    ghost can_mul_law = { λ _ _. tt };

    ghost mul_law = { mul_float single };

    ghost can_div_law = { λ _ _. tt };

    ghost div_law = { div_float single };
}

impl Real for f64 {
    ghost format = { double };

    ghost number = { λ x. x };

    fn zero() -> f64 {
        0.0
    }

    fn from_int(n: i64) -> f64 {
        i64_to_f64(n)
    }

    fn from_double(x: f64) -> f64 {
        x
    }

    fn from_single(x: f32) -> f64 {
        f32_to_f64(x)
    }

    fn value(self) -> Value {
        Value::Float(self)
    }

    ghost eq_law = { eq_float };

    ghost lt_law = { lt_float };

    ghost le_law = { le_float };

    ghost gt_law = { gt_float };

    ghost ge_law = { ge_float };

    ghost can_add_law = { λ _ _. tt };

    ghost add_law = { add_float double };

    ghost can_sub_law = { λ _ _. tt };

    ghost sub_law = { sub_float double };

    ghost can_mul_law = { λ _ _. tt };

    ghost mul_law = { mul_float double };

    ghost can_div_law = { λ _ _. tt };

    ghost div_law = { div_float double };
}
