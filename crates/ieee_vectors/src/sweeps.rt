// Sweeps, as oracle/ieee/vectors.c makes them: 64 pairs of operands from a seed.
ghost use Rattle.std.specs.Prelude.{◌≡◌, ◌<◌};
ghost use Rattle.ieee_vectors.specs.Sweeps.{next_of, near_tie, is_single, operand_of, sweep_of};

use crate::operations::result;

// The next random number.
fn next(x: u64) -> u64
    ensures { result ≡ next_of x }
{
    let a = x ^ (x << 13);
    let b = a ^ (a >> 7);
    b ^ (b << 17)
}

// x with a 1 at the place p and below it zeros, or one less or one more.
#[tactic(auto, unfolding(crate::specs::Sweeps::near_tie))]
fn near_tie(x: u64, p: u64, turn: u64) -> u64
    requires { p < 64 }
    ensures { result ≡ near_tie x p turn }
{
    let y = ((((x >> p) << 1) | 1) << p) >> 1;
    match turn {
        0 => y,
        1 => y.saturating_sub(1),
        2 => y | 1,
        _ => x,
    }
}

// Whether an operation is on singles.
fn is_single(op: u64) -> bool
    ensures { result ≡ is_single op }
{
    matches!(op, 0x03 | 0x05 | 0x0a..=0x0d | 0x0f | 0x13..=0x15 | 0x17)
}

// An operand of the operation from a random number: the exponent's field is e.
fn operand(op: u64, e: u64, x: u64) -> u64
    ensures { result ≡ operand_of op e x }
{
    let p = (x >> 57) % 54;
    let turn = (x >> 55) % 4;
    if op < 2 {
        return near_tie(x, p, turn) >> (e % 64);
    }
    let y = near_tie(x & 0xf_ffff_ffff_ffff, p, turn);
    if is_single(op) {
        ((x >> 63) << 31) | ((e & 0xff) << 23) | (y & 0x7f_ffff)
    } else {
        ((x >> 63) << 63) | ((e & 0x7ff) << 52) | (y & 0xf_ffff_ffff_ffff)
    }
}

// The digest of an operation's results for 64 pairs of operands.
pub(crate) fn sweep(op: u64, e: u64, seed: u64) -> u64
    ensures { result ≡ sweep_of op e seed }
{
    let mut x = seed;
    let mut h: u64 = 0x9e37_79b9_7f4a_7c15;
    for _ in 0..64u64 {
        let z = next(x);
        x = next(z);
        let a = operand(op, e, z);
        let b = operand(op, e % 4096 + 4064 + x % 64, next(x));
        h = next(h ^ result(op, a, b));
    }
    h
}
