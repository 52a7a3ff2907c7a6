// Lines of text: words, numbers and hexadecimal in them, and answers put together from pieces.
#![tactic(auto)]

pub mod answers;
mod line;

ghost use Rattle.std.specs.Prelude.{◌≡◌, ◌++◌, ◌+◌, ◌≤◌, length, take, drop, not, position};
ghost use Rattle.io.specs.Counts.{IsPrefixLen};
ghost use Rattle.relay_text.specs.Text.{is_blank, sort, run, word_at, word_number, words_up_to, hex_value, bytes_of, unhexed, unhexed_front, onto, Decoded, with_digit, number_of};

// A word of a line: it stands from `from` up to `to`.
#[derive(Clone, Copy)]
pub struct Word {
    pub from: usize,
    pub to: usize,
}

// A number above this one is told as one above this one.
const LARGE: usize = 1000000000000000;

fn is_blank(b: u8) -> bool
    ensures { result ≡ is_blank b }
{
    matches!(b, b' ' | b'\t'..=b'\r')
}

// Whether a character is a blank (`want`), or is none.
fn is_of(b: u8, want: bool) -> bool
    ensures { result ≡ sort want b }
{
    is_blank(b) == want
}

// The index of the first character that is not of this sort.
fn first_other(text: &[u8], over: bool) -> Option<usize>
    ensures { result ≡ position (λ b. not (sort over b)) text.now }
{
    text.iter().position(|b| !is_of(*b, over))
}

// How many blanks (`over`), or characters that are none, stand at the beginning.
#[tactic(auto, using(crate::proofs::Laws::run_is))]
fn run(text: &[u8], over: bool) -> usize
    ensures { (result ≤ length text.now) × (result ≡ run over text.now) }
{
    first_other(text, over).unwrap_or(text.len())
}

// The next word from `at` on; an empty one at the line's end.
fn next_word(line: &[u8], at: usize) -> Word
    requires { at ≤ length line.now }
    ensures { (result.from ≤ result.to) × (result.to ≤ length line.now) × (result ≡ word_at line.now at) }
{
    let from = at + run(&line[at..], true);
    Word {
        from,
        to: from + run(&line[from..], false),
    }
}

// How many words a line has, 6 where it has more.
pub fn words(line: &[u8]) -> usize
    ensures { result ≡ words_up_to 6 line.now 0 }
{
    let mut at = 0;
    for n in 0..6 {
        let w = next_word(line, at);
        if (w.from..w.to).is_empty() {
            return n;
        }
        at = w.to;
    }
    6
}

// The line's word number k, counted from 0; an empty one where there are fewer.
pub fn nth(line: &[u8], k: usize) -> Word
    ensures { (result.from ≤ result.to) × (result.to ≤ length line.now) × (result ≡ word_number line.now k) }
{
    let mut at = 0;
    for _ in 0..k {
        at = next_word(line, at).to;
    }
    next_word(line, at)
}

// The value of a hexadecimal digit.
fn digit(c: u8) -> Option<u8>
    ensures { result ≡ hex_value c }
{
    match c {
        b'0'..=b'9' => Some(c - b'0'),
        b'A'..=b'F' => Some(c - b'A' + 10),
        b'a'..=b'f' => Some(c - b'a' + 10),
        _ => None,
    }
}

// The bytes that a word in hexadecimal stands for, at the start of `out`; `-` stands for none.
pub(crate) fn unhex(text: &[u8], out: &mut [u8]) -> Option<usize>
    requires { length text.now ≤ length out.old + length out.old }
    ensures { Decoded (bytes_of text.now) result out.new × (out.new ≡ onto (unhexed_front text.now) out.old) }
{
    if text == b"-".as_slice() {
        return Some(0);
    }
    unhex_digits(text, out)
}

// The bytes that digits stand for, two for each.
fn unhex_digits(text: &[u8], out: &mut [u8]) -> Option<usize>
    requires { length text.now ≤ length out.old + length out.old }
    ensures { Decoded (unhexed text.now) result out.new × (out.new ≡ onto (unhexed_front text.now) out.old) }
{
    // Over `out.iter_mut().zip(text.chunks_exact(2))` it did not prove: no invariant of that loop can name what `out` holds.
    for i in 0..text.len() / 2 {
        let high = digit(text[2 * i])?;
        let low = digit(text[2 * i + 1])?;
        out[i] = high * 16 + low;
    }
    if text.len() % 2 == 0 {
        Some(text.len() / 2)
    } else {
        None
    }
}

// The number that a word of decimal digits stands for.
pub(crate) fn decimal(text: &[u8]) -> Option<usize>
    ensures { result ≡ number_of text.now }
{
    if text.is_empty() {
        return None;
    }
    let mut value = 0;
    for c in text {
        if !c.is_ascii_digit() {
            return None;
        }
        value = with_digit(value, *c);
    }
    Some(value)
}

// A number with one more digit behind it.
fn with_digit(v: usize, c: u8) -> usize
    requires { (v ≤ 10000000000000000) × ((48 ≤ c) × (c ≤ 57)) }
    ensures { (result ≤ 10000000000000000) × (result ≡ with_digit v c) }
{
    if v < LARGE {
        v * 10 + usize::from(c - b'0')
    } else {
        v
    }
}

// Puts a piece into `out` from `at` on; the place behind it. Every byte from there on stays.
pub fn put(out: &mut [u8], at: usize, piece: &[u8]) -> usize
    requires { at + length piece.now ≤ length out.old }
    ensures { (result ≡ at + length piece.now) × (take result out.new ≡ take at out.old ++ piece.now) × (drop result out.new ≡ drop result out.old) }
{
    let end = at + piece.len();
    out[at..end].copy_from_slice(piece);
    end
}

// The number n, or the slice's length where that is less.
pub fn within(n: usize, s: &[u8]) -> usize
    ensures prefix_len { IsPrefixLen result s.now }
    ensures s_value { take result s.now ≡ take n s.now }
{
    n.min(s.len())
}
