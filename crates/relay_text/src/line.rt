// A line that is put together from pieces.
ghost use Rattle.std.specs.Prelude.{◌≡◌, ◌+◌, ◌*◌, ◌≤◌, ◌<◌, length};
ghost use Rattle.relay_text.specs.Text.{glyph_of, hex_word, decimal_word};
ghost use Rattle.relay_text.specs.Lines.{line_end, fault_words, Appends};

use crate::put;
use ol_spec::Fault;

// A line in a buffer: its first `length` bytes are put.
#[derive(Drop)]
pub(crate) struct Line<'a> {
    pub(crate) out: &'a mut [u8],
    pub(crate) length: usize,
}

// `same_reference` stands in five clauses: that the buffer is still the same one is of the reference, and `Appends` is of what it holds.
impl Line<'_> {
    // A piece behind what is put.
    pub(crate) fn piece(&mut self, piece: &[u8])
        requires { self.old.length + length piece.now ≤ length self.old.out.now }
        ensures same_reference { self.new.out.ghost_name ≡ self.old.out.ghost_name }
        ensures appends { Appends self.old self.new piece.now }
    {
        self.length = put(self.out, self.length, piece);
    }

    // A number, in decimal digits, at most 20: a buffer of so many needs no allocation, which could fail.
    pub(crate) fn number(&mut self, n: usize)
        requires { self.old.length + 20 ≤ length self.old.out.now }
        ensures same_reference { self.new.out.ghost_name ≡ self.old.out.ghost_name }
        ensures appends { Appends self.old self.new (decimal_word n) }
        ensures short { self.new.length ≤ self.old.length + 20 }
    {
        let mut digits = [0u8; 20];
        let k = io::decimal(n as u64, &mut digits);
        self.piece(&digits[..k]);
    }

    // A fault's number and its place.
    pub(crate) fn fault(&mut self, fault: Fault)
        requires { self.old.length + 41 ≤ length self.old.out.now }
        ensures same_reference { self.new.out.ghost_name ≡ self.old.out.ghost_name }
        ensures appends { Appends self.old self.new (fault_words fault) }
        ensures short { self.new.length ≤ self.old.length + 41 }
    {
        self.number(usize::from(fault.number));
        self.piece(b" ");
        self.number(fault.place);
    }

    // Bytes in hexadecimal; `-` for none. The kit's crate hex has it too, but reads a malformed text without saying what it wrote
    // before the fault, as `unhex` says: the digits would then stand in two crates.
    pub(crate) fn hex(&mut self, bytes: &[u8])
        requires { self.old.length + (1 + 2 * length bytes.now) ≤ length self.old.out.now }
        ensures same_reference { self.new.out.ghost_name ≡ self.old.out.ghost_name }
        ensures appends { Appends self.old self.new (hex_word bytes.now) }
        ensures short { self.new.length ≤ self.old.length + (1 + 2 * length bytes.now) }
    {
        if bytes.is_empty() {
            self.piece(b"-");
            return;
        }
        for b in bytes {
            self.piece(&[glyph(*b / 16), glyph(*b % 16)]);
        }
    }

    // The line's end; the line's length.
    pub(crate) fn end(&mut self) -> usize
        requires { self.old.length + 1 ≤ length self.old.out.now }
        ensures same_reference { self.new.out.ghost_name ≡ self.old.out.ghost_name }
        ensures appends { Appends self.old self.new line_end }
        ensures is { result ≡ self.new.length }
    {
        self.piece(b"\n");
        self.length
    }
}

fn glyph(d: u8) -> u8
    requires { d < 16 }
    ensures { result ≡ glyph_of d }
{
    match d {
        0..=9 => b'0' + d,
        _ => b'a' + (d - 10),
    }
}
