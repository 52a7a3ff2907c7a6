// The operations of the rows, by their numbers.
ghost use Rattle.std.specs.Prelude.{◌≡◌, ◌%◌};
ghost use Rattle.ieee_vectors.specs.Operations.{result_of};

// The last 32 bits. A cast must lose no bits: `a.to_le_bytes()` with four of its bytes taken is no plainer than `%` and `as`.
fn low(a: u64) -> u32
    ensures { result ≡ a % 0x1_0000_0000 }
{
    (a % 0x1_0000_0000) as u32
}

// The result of an operation on two operands, by their bits. The numbers are those of the rows. An enum would list all 24 twice more,
// and save only the tests of sweeps.rt: which operations are on singles, and which on integers.
pub(crate) fn result(op: u64, a: u64, b: u64) -> u64
    ensures { result ≡ result_of op a b }
{
    let x = ol_real::f64_of_bits(a);
    let y = ol_real::f64_of_bits(b);
    let s = ol_real::f32_of_bits(low(a));
    let t = ol_real::f32_of_bits(low(b));
    match op {
        0x00 => ol_real::f64_bits(ol_real::i64_to_f64(a.cast_signed())),
        0x01 => u64::from(ol_real::f32_bits(ol_real::i64_to_f32(a.cast_signed()))),
        0x02 => u64::from(ol_real::f32_bits(ol_real::f64_to_f32(x))),
        0x03 => ol_real::f64_bits(ol_real::f32_to_f64(s)),
        0x04 => ol_real::f64_to_i64(x).cast_unsigned(),
        0x05 => ol_real::f32_to_i64(s).cast_unsigned(),
        0x06 => ol_real::f64_bits(x + y),
        0x07 => ol_real::f64_bits(x - y),
        0x08 => ol_real::f64_bits(x * y),
        0x09 => ol_real::f64_bits(x / y),
        0x0a => u64::from(ol_real::f32_bits(s + t)),
        0x0b => u64::from(ol_real::f32_bits(s - t)),
        0x0c => u64::from(ol_real::f32_bits(s * t)),
        0x0d => u64::from(ol_real::f32_bits(s / t)),
        0x0e => ol_real::f64_bits(-x),
        0x0f => u64::from(ol_real::f32_bits(-s)),
        0x10 => u64::from(x == y),
        0x11 => u64::from(x < y),
        0x12 => u64::from(x <= y),
        0x13 => u64::from(s == t),
        0x14 => u64::from(s < t),
        0x15 => u64::from(s <= t),
        0x16 => ol_real::f64_bits(x),
        _ => u64::from(ol_real::f32_bits(s)),
    }
}
