// The line program: commands on standard input, one a line, answers on standard output, one a line. oracle/README.md has the protocol.
#![tactic(auto)]

mod request;
mod session;

ghost use Rattle.std.specs.Prelude.{◌≡◌, ◌==◌, ◌||◌, not, length, position, take};
ghost use Rattle.relay_text.specs.Lines.{Said};
ghost use Rattle.relay.specs.Reply.{reply};
ghost use Rattle.relay.specs.Kept.{standing, Replies};
ghost use Rattle.relay.specs.Turns.{unread, begun, waiting, after, Takes, Refills, Turned};
ghost use Rattle.relay.specs.Sessions.{Served};

use rows::streams::read;
use session::Session;
use std::io::{Stdin, Stdout, Write};

// A piece of the input as it is read: its bytes from `at` up to `end` are not taken yet. The line's first
// `length` bytes are there. It is whole once its end was met; the input is at its end once a read gives nothing.
// The first is of the line and the second of the input, which goes on behind a line, so one enum for both is no plainer.
// `is_whole` is asked only of what `take_line` answers: a struct of its own for that answer would have the other four fields again.
// Both buffers have fixed lengths, so that no answer depends on the memory that there is.
#[derive(Clone, Copy)]
struct Input {
    at: usize,
    end: usize,
    length: usize,
    is_whole: bool,
    is_end: bool,
}

// Where the line's end is met.
fn line_end(text: &[u8]) -> Option<usize>
    ensures { result ≡ position (λ b. b == 10) text.now }
{
    text.iter().position(|b| *b == b'\n')
}

// Moves bytes of the input into the line, up to a line's end. Of a line that is too long the bytes
// that do not fit are dropped.
fn take_line(input: &[u8], i: Input, line: &mut [u8; 262145]) -> Input
    ensures { Takes (begun i line.old) (unread i input.now) i.is_end result line.new input.now }
{
    let end = relay_text::within(i.end, input);
    let at = i.at.min(end);
    let rest = &input[at..end];
    let found = line_end(rest);
    let from = i.length.min(line.len());
    let n = found.unwrap_or(rest.len()).min(line.len() - from);
    let length = relay_text::put(line, from, &rest[..n]);
    match found {
        Some(k) => Input {
            at: at + k + 1,
            end,
            length,
            is_whole: true,
            is_end: false,
        },
        None => Input {
            at: end,
            end,
            length,
            is_whole: false,
            is_end: i.is_end,
        },
    }
}

// Where a run stands: the input, the number of the line that is read, whether it is over. The end of a run is told
// of the input and the line too (`Served`), so an Option that drops them says less.
#[derive(Clone, Copy)]
struct Turn {
    input: Input,
    line: usize,
    is_over: bool,
}

// The input with something in it, unless it is at its end.
fn refill(stdin: Stdin, input: &mut [u8], i: Input) -> Input
    ensures { Refills i input.old result input.new }
{
    if i.at < i.end {
        return i;
    }
    let n = read(stdin, input);
    Input {
        at: 0,
        end: n,
        length: i.length,
        is_whole: false,
        is_end: n == 0,
    }
}

// Answers a line of so many bytes: what was handed to the write.
fn respond(stdout: Stdout, no: usize, n: usize, line: &[u8], session: &mut Session) -> Written
    ensures { Replies (reply no (take n line.now) (standing session.old)) result.length session.new }
{
    let m = relay_text::within(n, line);
    let k = session.answer(no, &line[..m]);
    write_front(stdout, &session.out, k)
}

// How many bytes a write was handed, and whether it took them. Both hold of every write, so no Option says it plainer.
// No code reads `length`: the contracts say by it which answer was handed to the write.
#[derive(Clone, Copy)]
struct Written {
    length: usize,
    is_taken: bool,
}

// Writes the bytes, all of them. Whether the system takes them is free.
fn write(stdout: Stdout, bytes: &[u8]) -> Written
    ensures { result.length ≡ length bytes.now }
{
    let mut output = stdout;
    let is_taken = output.write_all(bytes).is_ok();
    Written {
        length: bytes.len(),
        is_taken,
    }
}

// Writes the buffer's first n bytes.
fn write_front(stdout: Stdout, out: &[u8], n: usize) -> Written
    ensures { Said (take n out.now) result.length out.now }
{
    let k = relay_text::within(n, out);
    write(stdout, &out[..k])
}

// The number of the line behind this one.
fn next(n: usize) -> usize
    ensures { result ≡ after n }
{
    n.saturating_add(1)
}

// Whether a line waits for more: its end is not met, and the input goes on, or there is nothing of it.
fn is_waiting(i: Input) -> bool
    ensures { result ≡ waiting i }
{
    !i.is_whole && (!i.is_end || i.length == 0)
}

// Whether the line that was answered is the last: the input is at its end, or the answer was not taken.
fn is_last(ended: bool, taken: bool) -> bool
    ensures { result ≡ (ended || not taken) }
{
    ended || !taken
}

// One turn, with an input that was refilled: takes what it has of a line, and answers the line once its end, or the input's, is met.
fn advance(
    stdout: Stdout,
    t: Turn,
    i: Input,
    input: &[u8],
    line: &mut [u8; 262145],
    session: &mut Session,
) -> Turn
    ensures { Turned t i result line.old input.now session.old line.new session.new }
{
    let taken = take_line(input, i, line);
    if is_waiting(taken) {
        return Turn {
            input: taken,
            line: t.line,
            is_over: taken.is_end,
        };
    }
    let written = respond(stdout, t.line, taken.length, line, session);
    Turn {
        input: Input {
            at: taken.at,
            end: taken.end,
            length: 0,
            is_whole: false,
            is_end: taken.is_end,
        },
        line: next(t.line),
        is_over: is_last(taken.is_end, written.is_taken),
    }
}

// Answers the lines of the input in turn, up to the input's end or an answer that is not taken.
// A proved loop has to end, and nothing says that the input does. So the loop counts its turns, up to a number that no run reaches.
fn serve(
    stdin: Stdin,
    stdout: Stdout,
    input: &mut [u8],
    line: &mut [u8; 262145],
    session: &mut Session,
) -> Turn
    requires { session.old.kept ≡ None }
    ensures { Served result line.new input.new session.new }
{
    let mut t = Turn {
        input: Input {
            at: 0,
            end: 0,
            length: 0,
            is_whole: false,
            is_end: false,
        },
        line: 1,
        is_over: false,
    };
    for _ in 0..u64::MAX {
        if t.is_over {
            return t;
        }
        let filled = refill(stdin, input, t.input);
        t = advance(stdout, t, filled, input, line, session);
    }
    t
}

// Room for a line, and a character more, so that one that is too long is seen to be.
fn main(rt: HostRuntime) {
    let mut input = io::large_buffer();
    let mut line = [0; 262145];
    let mut session = Session::new();
    serve(rt.stdin(), rt.stdout(), &mut input, &mut line, &mut session);
}
