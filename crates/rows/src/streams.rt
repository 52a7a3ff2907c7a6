// The standard input and output, as the programs read and write them. Which bytes a read gives and
// whether a write takes them is free. A read that fails counts as the input's end.
ghost use Rattle.std.specs.Prelude.{◌≡◌, ◌<◌, length};
ghost use Rattle.io.specs.Counts.{IsPrefixLen};

use std::io::{Read, Stdin, Stdout, Write};

// What is said where a list ends too early, and where bytes are left behind its last answer.
pub const CUT: &[u8] = b"the list is cut off\n";

pub const LEFT: &[u8] = b"bytes are left behind the list\n";

// What a program reads, and where it writes.
#[derive(Clone, Copy)]
pub struct Streams {
    pub input: Stdin,
    pub output: Stdout,
}

impl Streams {
    // Reads until the buffer is full, the input ends or a read fails; how many bytes stand at the buffer's start then.
    pub fn read_full(self, buf: &mut [u8]) -> usize
        ensures { IsPrefixLen result buf.new }
    {
        let mut done = 0;
        while done < buf.len() {
            let n = read(self.input, &mut buf[done..]);
            if n == 0 {
                break;
            }
            done += n;
        }
        done
    }

    // Fills the buffer. Where the input ends too early, it says so by the line `cut`: what was read stands for nothing, and the run cannot pass.
    pub fn fill(self, buf: &mut [u8], cut: &[u8])
        ensures { length buf.new ≡ length buf.old }
    {
        if self.read_full(buf) < buf.len() {
            self.write_all(cut);
        }
    }

    // The next N bytes.
    pub fn next<const N: usize>(self, cut: &[u8]) -> [u8; N]
        ensures { length result ≡ N }
    {
        let mut bytes = [0; N];
        self.fill(&mut bytes, cut);
        bytes
    }

    // The next byte.
    pub fn next_byte(self, cut: &[u8]) -> u8
        ensures { result < 256 }
    {
        let [byte] = self.next::<1>(cut);
        byte
    }

    // The next two bytes, a number, the high one first. Where both are missing, each is said to be.
    pub fn next_number(self, cut: &[u8]) -> usize
        ensures { result < 65536 }
    {
        let high = self.next_byte(cut);
        let low = self.next_byte(cut);
        usize::from(u16::from_be_bytes([high, low]))
    }

    // Says by the line `left` where bytes are left behind what is read.
    pub fn tell_left(self, left: &[u8]) {
        if self.read_full(&mut [0]) > 0 {
            self.write_all(left);
        }
    }

    // Hands the bytes to the system; there is no outcome, whether it takes them or not.
    pub fn write_all(mut self, bytes: &[u8]) {
        let _ = self.output.write_all(bytes);
    }

    // The same of a number in decimal digits.
    pub fn write_decimal(mut self, n: u64) {
        let _ = write!(self.output, "{n}");
    }

    // The same of a number in 16 hexadecimal digits.
    pub fn write_hex(mut self, n: u64) {
        let _ = write!(self.output, "{n:016x}");
    }

    // The same of a line: its label, how many answers are good, and of how many. Each piece is handed over, whether those before it were taken or not.
    pub fn write_sum(self, label: &str, good: u64, all: u64) {
        self.write_all(label.as_bytes());
        self.write_decimal(good);
        self.write_all(b" of ");
        self.write_decimal(all);
        self.write_all(b"\n");
    }
}

// One read; how many bytes stand at the buffer's start then. A read that fails gives nothing.
pub fn read(mut input: Stdin, buf: &mut [u8]) -> usize
    ensures { IsPrefixLen result buf.new }
{
    input.read(buf).unwrap_or(0)
}
