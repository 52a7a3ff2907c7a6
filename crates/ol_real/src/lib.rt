// The conversions between integers, singles, doubles and bits, each worked out exactly as IEEE 754
// defines it. specs/Ieee754.antt has the definition, and specs/Holds.antt what is proved of it.
#![tactic(auto)]

ghost use Rattle.std.specs.Prelude.{◌≡◌, ◌*◌, ◌^◌, ◌<◌, ◌≤◌, false, pos};
ghost use Rattle.std.specs.Float.Ieee.{round};
ghost use Rattle.std.specs.Float.Ieee.Nearest as Nearest;
ghost use Rattle.ol_spec.specs.Real.{single, double, from_bits, to_bits, of_int, round_single, widen, truncate};
ghost use Rattle.ol_real.specs.Kept.{Kept};

// An integer as a double: the nearest, a tie to the even one.
pub fn i64_to_f64(n: i64) -> f64
    ensures { result ≡ of_int double n }
{
    std::num::nearest_i64_to_f64(n)
}

// An integer as a single: the nearest, a tie to the even one. It is rounded once. With std's
// nearest_i64_to_f32, and its nearest_f64_to_f32_with_nan below, which round in two halves of 128 bits, a call was measured
// a quarter slower (15 and 22 instructions more), and old files are to keep their speed; here one u64 holds the digits.
pub fn i64_to_f32(n: i64) -> f32
    ensures { result ≡ of_int single n }
{
    let size = u64_to_f32(n.unsigned_abs());
    if n < 0 { -size } else { size }
}

// The single nearest to an integer that is not negative.
fn u64_to_f32(n: u64) -> f32
    ensures { result ≡ of_int single (pos n) }
{
    if n < 16777216 {
        n as f32
    } else {
        // the leading 24 of n's digits stay, and d go
        let d = 40 - u64::from(n.leading_zeros());
        nearest_single(n, d, d + 149)
    }
}

// A double as a single: the nearest, a tie to the even one.
pub fn f64_to_f32(x: f64) -> f32
    ensures { result ≡ round_single x }
{
    if x.is_nan() {
        f32::NAN
    } else {
        let bits = x.to_bits();
        let r = size_to_f32(bits & 0x7fff_ffff_ffff_ffff);
        if bits < 0x8000_0000_0000_0000 { r } else { -r }
    }
}

// The single nearest to a double that is not negative, from its bits.
fn size_to_f32(b: u64) -> f32
    requires { b ≤ 0x7ff0_0000_0000_0000 }
    ensures { result ≡ round_single (from_bits double b) }
{
    let e = b >> 52;
    let m = (b & 0xf_ffff_ffff_ffff) + 0x10_0000_0000_0000;
    match e {
        2047.. => f32::INFINITY,

        // a normal single, or too large for one
        897..=2046 => nearest_single(m, 29, e - 897),

        // a subnormal single
        873..=896 => nearest_single(m, 926 - e, 0),

        // less than half of the least single above 0
        _ => 0.0,
    }
}

// The single nearest to m * 2^k / 2^d times 2^-149, the least single above 0. Its bits are the
// digits kept, added to the exponent's field k: a leading digit adds one to that field, and a carry
// out of the digits another, up to the field of the infinity.
fn nearest_single(m: u64, d: u64, k: u64) -> f32
    requires { Kept m d k }
    ensures { result ≡ round single false (m * 2 ^ k) (2 ^ d * 2 ^ 149) }
{
    let bits = k * 8388608 + closest(m, d);
    if bits < 0x7f80_0000 {
        f32::from_bits(bits as u32)
    } else {
        f32::INFINITY
    }
}

// m / 2^d to the nearest whole number, a tie to the even one.
fn closest(m: u64, d: u64) -> u64
    requires { (1 ≤ d) × (d < 64) }
    ensures { result ≡ Nearest.closest m (2 ^ d) }
{
    let unit: u64 = 1 << d;
    let whole = m >> d;
    let twice = (m & (unit - 1)) * 2;
    if twice < unit {
        whole
    } else if unit < twice {
        whole + 1
    } else {
        whole + whole % 2
    }
}

// A single as a double: the same number.
pub fn f32_to_f64(x: f32) -> f64
    ensures { result ≡ widen x }
{
    std::num::f32_to_f64_with_nan(x)
}

// A double cut toward zero, to the nearest end of the range where it is outside; a NaN gives 0.
#[tactic(auto, unfolding(ol_spec::specs::Real::truncate))]
pub fn f64_to_i64(x: f64) -> i64
    ensures { result ≡ truncate x }
{
    std::num::saturating_f64_to_i64(x)
}

// A single cut toward zero, likewise.
#[tactic(auto, unfolding(ol_spec::specs::Real::truncate))]
pub fn f32_to_i64(x: f32) -> i64
    ensures { result ≡ truncate x }
{
    std::num::saturating_f32_to_i64(x)
}

// The bits of a double; of a NaN 7FF8000000000000.
#[tactic(auto, unfolding(ol_spec::specs::Real::to_bits))]
pub fn f64_bits(x: f64) -> u64
    ensures { result ≡ to_bits double x }
{
    std::num::f64_to_bits_with_nan(x)
}

// The bits of a single; of a NaN 7FC00000.
#[tactic(auto, unfolding(ol_spec::specs::Real::to_bits))]
pub fn f32_bits(x: f32) -> u32
    ensures { result ≡ to_bits single x }
{
    std::num::f32_to_bits_with_nan(x)
}

// The double of a bit pattern; every NaN's pattern gives the one NaN.
#[tactic(auto, unfolding(ol_spec::specs::Real::from_bits))]
pub fn f64_of_bits(b: u64) -> f64
    ensures { result ≡ from_bits double b }
{
    std::num::f64_from_bits_with_nan(b)
}

// The single of a bit pattern, likewise.
#[tactic(auto, unfolding(ol_spec::specs::Real::from_bits))]
pub fn f32_of_bits(b: u32) -> f32
    ensures { result ≡ from_bits single b }
{
    std::num::f32_from_bits_with_nan(b)
}
