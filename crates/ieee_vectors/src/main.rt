// Checks the conversions of ol_real and the arithmetic of reals against the rows on standard input:
// those of oracle/ieee/published.py, then those of oracle/ieee/vectors.c, whose head says what a row
// has. Each mismatch is written as the row with the result found here, and at the end the counts.
// Which bytes a read gives and whether a write takes them is free.
#![tactic(auto)]

mod operations; // operations.rt: the result of an operation
mod sweeps; // sweeps.rt: rows that stand for 64 operations each

ghost use Rattle.std.specs.Prelude.{◌≡◌, ◌+◌, ◌*◌, ◌≤◌, ◌<◌, length};
ghost use Rattle.rows.specs.Rows.{Compares};
ghost use Rattle.ieee_vectors.specs.Lines.{digit_of, number_at, answer_at, answers, results, Counted, Checked, Total, passing};

use operations::result;
use rows::streams::Streams;
use rows::{Compared, compare};
use sweeps::sweep;

// How many bytes a row has, with its end.
const ROW: usize = 54;

// ---- a row

// The value of a hexadecimal digit; of any other byte 0.
fn digit(c: u8) -> u64
    ensures { (result ≡ digit_of c) × (result < 16) }
{
    match c {
        b'0'..=b'9' => u64::from(c - b'0'),
        b'a'..=b'f' => u64::from(c - b'a' + 10),
        _ => 0,
    }
}

// The number of the n hexadecimal digits from the byte `at` on.
fn number(text: &[u8], at: usize, n: usize) -> u64
    requires { at + n ≤ length text.now }
    ensures { result ≡ number_at text.now at n }
{
    let mut x: u64 = 0;
    for c in &text[at..at + n] {
        x = x % 0x1000_0000_0000_0000 * 16 + digit(*c);
    }
    x
}

// What the operation and the operands of the row from the byte `at` on give.
fn answer(text: &[u8], at: usize) -> u64
    requires { at + 54 ≤ length text.now }
    ensures { result ≡ answer_at text.now at }
{
    let op = number(text, at, 2);
    let a = number(text, at + 3, 16);
    let b = number(text, at + 20, 16);
    if op < 0x80 {
        result(op, a, b)
    } else {
        sweep(op - 0x80, a, b)
    }
}

// ---- a block of rows

// That a text has so many rows stands in four clauses: how many it has is known at the run only, so no type can say it.

// What the rows of a text give.
fn find(text: &[u8], found: &mut [u64])
    requires { 54 * length found.old ≤ length text.now }
    ensures { found.new ≡ answers text.now (length found.old) }
{
    for (k, r) in found.iter_mut().enumerate() {
        *r = answer(text, k * ROW);
    }
}

// What the rows of a text say that they give. A function for both loops would take a closure, with clauses on what it gives at each row: no shorter.
fn want(text: &[u8], wanted: &mut [u64])
    requires { 54 * length wanted.old ≤ length text.now }
    ensures { wanted.new ≡ results text.now (length wanted.old) }
{
    for (k, r) in wanted.iter_mut().enumerate() {
        *r = number(text, k * ROW + 37, 16);
    }
}

// How many rows are right, and how many are not; a last row that is cut off is not.
#[derive(Clone, Copy)]
struct Counts {
    right: u64,
    wrong: u64,
}

// Writes a row with the result found here.
fn tell_row(streams: Streams, row: &[u8], r: u64) {
    streams.write_all(row);
    streams.write_hex(r);
    streams.write_all(b"\n");
}

// Writes each row from row `from` on whose result is not the one found here.
fn tell_others(streams: Streams, text: &[u8], from: usize, found: &[u64], wanted: &[u64]) {
    let results = found.iter().zip(wanted);
    for (row, (f, w)) in text.chunks_exact(ROW).zip(results).skip(from) {
        if f != w {
            tell_row(streams, row, *f);
        }
    }
}

// Compares the first rows of a text with what is found here, and writes those that do not agree.
fn compare_in(streams: Streams, text: &[u8], found: &mut [u64], wanted: &mut [u64]) -> Compared
    requires { (54 * length found.old ≤ length text.now) × (length wanted.old ≡ length found.old) }
    ensures { Compares (answers text.now (length found.old)) (results text.now (length found.old)) result }
{
    find(text, found);
    want(text, wanted);
    let c = compare(found, wanted);
    if let Some(first) = c.first {
        tell_others(streams, text, first, found, wanted);
    }
    c
}

// The same of the first n rows. How many there are is known at the run only: the buffers have the most, and need no heap.
fn compare_rows(streams: Streams, text: &[u8], n: usize) -> Compared
    requires { (n ≤ 64) × (54 * n ≤ length text.now) }
    ensures { Compares (answers text.now n) (results text.now n) result }
{
    let mut found = [0; 64];
    let mut wanted = [0; 64];
    compare_in(streams, text, &mut found[..n], &mut wanted[..n])
}

// Writes a last row that is cut off.
fn tell_cut(streams: Streams, text: &[u8], at: usize)
    requires { at ≤ length text.now }
{
    streams.write_all(b"cut off: ");
    streams.write_all(&text[at..]);
    streams.write_all(b"\n");
}

// The counts of a text of at most 64 rows.
fn count_rows(streams: Streams, text: &[u8]) -> Counts
    requires { length text.now ≤ 3456 }
    ensures { Counted text.now result }
{
    let n = text.len() / ROW;
    let c = compare_rows(streams, text, n);
    let others = n - c.agreeing;
    let end = n * ROW;
    let is_cut = end < text.len();
    if is_cut {
        tell_cut(streams, text, end);
    }
    Counts {
        right: c.agreeing as u64,
        wrong: others as u64 + u64::from(is_cut),
    }
}

// Reads the next rows, at most 64, and counts them. How many bytes there are is known at the run only: the buffer has the most.
fn check_block(streams: Streams) -> Counts
    ensures { Checked result }
{
    let mut block = [0; 3456];
    let n = streams.read_full(&mut block);
    count_rows(streams, &block[..n])
}

// Every row up to the input's end. A proved loop has to end, so it has a number of turns that no run uses up.
fn check_all(streams: Streams) -> Counts
    ensures { Total result.right result.wrong }
{
    let mut right: u64 = 0;
    let mut wrong: u64 = 0;
    for _ in 0..0x100_0000_0000_0000u64 {
        let c = check_block(streams);
        if c.right + c.wrong == 0 {
            break;
        }
        right += c.right;
        wrong += c.wrong;
    }
    Counts { right, wrong }
}

// Whether a run passes: there are rows, and each is right.
fn passes(c: Counts) -> bool
    ensures { result ≡ passing c }
{
    c.right > 0 && c.wrong == 0
}

// Writes the counts, and whether the run passes.
fn report(streams: Streams, c: Counts) -> bool
    ensures { result ≡ passing c }
{
    streams.write_decimal(c.right);
    streams.write_all(b" rows right, ");
    streams.write_decimal(c.wrong);
    streams.write_all(b" wrong");
    if passes(c) {
        streams.write_all(b": ok\n");
        true
    } else {
        streams.write_all(b"\n");
        false
    }
}

fn main(rt: HostRuntime) {
    let streams = Streams {
        input: rt.stdin(),
        output: rt.stdout(),
    };
    report(streams, check_all(streams));
}
