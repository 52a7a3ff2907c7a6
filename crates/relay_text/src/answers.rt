// The answers' lines, and what the words of a command's line stand for. Each line asks for the room that it takes; 128 bytes
// have room for each line that has no list in it, and need no name.
ghost use Rattle.std.specs.Prelude.{◌≡◌, ◌+◌, ◌*◌, ◌≤◌, length};
ghost use Rattle.relay_text.specs.Text.{bytes_of, unhexed_front, onto, number_of, Decoded};
ghost use Rattle.relay_text.specs.Lines.{error_line, refused_line, admit_line, state_line, answered_line, stopped_line, order_line, no_order_line, Puts, word_text};

use crate::line::Line;
use crate::{decimal, nth, unhex};
use ol_spec::Fault;

// error LINE REASON
pub fn say_error(out: &mut [u8], line: usize, reason: &[u8]) -> usize
    requires { (128 ≤ length out.old) × (length reason.now ≤ 32) }
    ensures { Puts (error_line line reason.now) out.old result out.new }
{
    let mut answer = Line { out, length: 0 };
    answer.piece(b"error ");
    answer.number(line);
    answer.piece(b" ");
    answer.piece(reason);
    answer.end()
}

// refused NUMBER PLACE
pub fn say_refused(out: &mut [u8], fault: Fault) -> usize
    requires { 128 ≤ length out.old }
    ensures { Puts (refused_line fault.number fault.place) out.old result out.new }
{
    let mut answer = Line { out, length: 0 };
    answer.piece(b"refused ");
    answer.fault(fault);
    answer.end()
}

// admit NUMBER PLACE LENGTH
pub fn say_admit(out: &mut [u8], fault: Fault, state: usize) -> usize
    requires { 128 ≤ length out.old }
    ensures { Puts (admit_line fault.number fault.place state) out.old result out.new }
{
    let mut answer = Line { out, length: 0 };
    answer.piece(b"admit ");
    answer.fault(fault);
    answer.piece(b" ");
    answer.number(state);
    answer.end()
}

// state STATE
pub fn say_state(out: &mut [u8], state: &[u8]) -> usize
    requires { 16 + 2 * length state.now ≤ length out.old }
    ensures { Puts (state_line state.now) out.old result out.new }
{
    let mut answer = Line { out, length: 0 };
    answer.piece(b"state ");
    answer.hex(state);
    answer.end()
}

// answered VALUES STATE
pub fn say_answered(out: &mut [u8], values: &[u8], state: &[u8]) -> usize
    requires { 16 + (2 * length values.now + 2 * length state.now) ≤ length out.old }
    ensures { Puts (answered_line values.now state.now) out.old result out.new }
{
    let mut answer = Line { out, length: 0 };
    answer.piece(b"answered ");
    answer.hex(values);
    answer.piece(b" ");
    answer.hex(state);
    answer.end()
}

// stopped NUMBER EQUATION STATE
pub fn say_stopped(out: &mut [u8], fault: Fault, state: &[u8]) -> usize
    requires { 64 + 2 * length state.now ≤ length out.old }
    ensures { Puts (stopped_line fault.number fault.place state.now) out.old result out.new }
{
    let mut answer = Line { out, length: 0 };
    answer.piece(b"stopped ");
    answer.fault(fault);
    answer.piece(b" ");
    answer.hex(state);
    answer.end()
}

// order refused NUMBER PLACE
pub fn say_no_order(out: &mut [u8], fault: Fault) -> usize
    requires { 128 ≤ length out.old }
    ensures { Puts (no_order_line fault.number fault.place) out.old result out.new }
{
    let mut answer = Line { out, length: 0 };
    answer.piece(b"order refused ");
    answer.fault(fault);
    answer.end()
}

// order ok INDEX ..
pub fn say_order(out: &mut [u8], entries: &[usize]) -> usize
    requires { 16 + 21 * length entries.now ≤ length out.old }
    ensures { Puts (order_line entries.now) out.old result out.new }
{
    let mut answer = Line { out, length: 0 };
    answer.piece(b"order ok");
    for index in entries {
        answer.piece(b" ");
        answer.number(*index);
    }
    answer.end()
}

// The bytes that a word of the line stands for, at the start of `bytes`; those before its first fault, where it is malformed.
pub fn bytes_of(line: &[u8], k: usize, bytes: &mut [u8]) -> Option<usize>
    requires { length line.now ≤ length bytes.old + length bytes.old }
    ensures { Decoded (bytes_of (word_text line.now k)) result bytes.new × (bytes.new ≡ onto (unhexed_front (word_text line.now k)) bytes.old) }
{
    let w = nth(line, k);
    unhex(&line[w.from..w.to], bytes)
}

// The number that a word of the line stands for.
pub fn number_of(line: &[u8], k: usize) -> Option<usize>
    ensures { result ≡ number_of (word_text line.now k) }
{
    let w = nth(line, k);
    decimal(&line[w.from..w.to])
}
