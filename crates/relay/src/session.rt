// What a line is answered with, over the public entry.
ghost use Rattle.std.specs.Prelude.{◌≡◌, ℕ, ◌≤◌, [], length, take, MatchResult};
ghost use Rattle.ol_spec.specs.Limits.{relay_loader};
ghost use Rattle.ol_spec.specs.Admission.{judge};
ghost use Rattle.relay_text.specs.Lines.{Said};
ghost use Rattle.relay.specs.Reply.{Standing, opened, error_reply, fresh_of, obey, reply, order_call, order_text, values_length, load_fault, told, load_told, cycle_told, at_told};
ghost use Rattle.relay.specs.Requests.{start_again, file_of};
ghost use Rattle.relay.specs.Kept.{asked_in, standing, Replies, Tells, Begins, Lends};

use crate::request::{Lent, Query, Reason, Request, ask};
use ol_order::counts::equation_count;
use ol_spec::{Cycled, Fault};
use relay_text::answers::{
    say_admit, say_answered, say_error, say_no_order, say_order, say_refused, say_state,
    say_stopped,
};
use relay_text::{put, within};

// The lengths of the file that is open, and of the state that its next cycle starts from.
#[derive(Clone, Copy)]
pub struct Kept {
    pub file: usize,
    pub state: usize,
}

// What a session keeps, the open file and its state among it, and the buffers that it works in: the bytes that a line gives,
// a cycle's inputs, new state and values, and the answer. Their lengths are fixed, so that no answer depends on the memory that
// there is: each has room for what the longest line can ask for, and how much of it is in use is told beside it.
#[derive(Drop)]
pub struct Session {
    pub kept: Option<Kept>,
    pub file: [u8; 131072],
    pub state: [u8; 131072],
    pub bytes: [u8; 131072],
    pub inputs: [u8; 131072],
    pub next: [u8; 131072],
    pub values: [u8; 32768],
    pub out: [u8; 393216],
}

// What an admitted file is told with: the protocol's line has number 0 at place 0 for no fault, which in ol_spec's types is `Ok`.
const NO_FAULT: Fault = Fault {
    number: 0,
    place: 0,
};

// The first n bytes, or all where there are fewer.
fn front(s: &[u8], n: usize) -> &[u8]
    ensures { result.now ≡ take n s.now }
{
    &s[..within(n, s)]
}

// Puts bytes in the place of those at a buffer's start.
fn replace(buffer: &mut [u8], bytes: &[u8])
    requires { length bytes.now ≤ length buffer.old }
    ensures { take (length bytes.now) buffer.new ≡ bytes.now }
{
    put(buffer, 0, bytes);
}

// ---- the public entry

// Judges a file, and starts it if it is admitted: the length of its fresh state.
fn begin(file: &[u8], state: &mut [u8; 131072]) -> Result<usize, Fault>
    ensures { Begins file.now result state.new }
{
    let n = ol_sim::admission(file)?;
    let _ = ol_sim::start(file, &mut state[..n]);
    Ok(n)
}

// The length of a file's values: 0 where it is refused.
fn values_length(file: &[u8]) -> usize
    ensures { result ≡ values_length (judge relay_loader file.now) }
{
    ol_sim::lengths(file, 0).map_or(0, |l| l.values)
}

// The lengths that a cycle is lent: those that the line gives, as far as the buffers go, or the right ones.
fn lent_to(file: &[u8], old: &[u8], given: Option<Lent>) -> Lent
    requires { length old.now ≤ 131072 }
    ensures { Lends file.now old.now given result }
{
    match given {
        Some(l) => Lent {
            state: l.state.min(131072),
            values: l.values.min(32768),
        },
        None => Lent {
            state: old.len(),
            values: values_length(file),
        },
    }
}

// What a cycle from this state is refused with for the file or the state; its buffers are empty, so that a good state ends in 16 or 17.
fn load_fault(file: &[u8], state: &[u8]) -> Option<Fault>
    ensures { result ≡ load_fault file.now state.now }
{
    let mut new = [0; 0];
    let mut values = [0; 0];
    match ol_sim::cycle(file, state, b"", &mut new, &mut values) {
        Cycled::Refused(f) if matches!(f.number, 1..=15 | 22) => Some(f),
        _ => None,
    }
}

// order NODE. A node has at most 80 entries: a buffer of so many needs no allocation, which could fail.
fn order(file: &[u8], node: usize, out: &mut [u8]) -> usize
    requires { 1696 ≤ length out.old }
    ensures { Said (order_text (order_call file.now node)) result out.new }
{
    let mut entries = [0; 80];
    let entries = &mut entries[..equation_count(file, node)];
    match ol_sim::evaluation_order(file, node, entries) {
        Ok(()) => say_order(out, entries),
        Err(f) => say_no_order(out, f),
    }
}

impl Session {
    // No file is open.
    pub(crate) fn new() -> Session
        ensures { result.kept ≡ None }
    {
        Session {
            kept: None,
            file: [0; 131072],
            state: [0; 131072],
            bytes: [0; 131072],
            inputs: [0; 131072],
            next: [0; 131072],
            values: [0; 32768],
            out: [0; 393216],
        }
    }

    // Judges the file at the buffer's start, of so many bytes, and starts it if it is admitted: the length of its fresh state.
    // Of a refused file the state is the empty one: each call on it is refused for the file.
    #[tactic(auto, using(crate::proofs::Tellings::kept_length))]
    fn restart(&mut self, n: usize) -> Result<usize, Fault>
        ensures begun { Begins (take n self.old.file) result self.new.state }
        ensures stands { standing self.new ≡ opened (take n self.old.file) (fresh_of (take n self.old.file)) }
    {
        let begun = begin(front(&self.file, n), &mut self.state);
        self.kept = Some(Kept {
            file: n,
            state: begun.unwrap_or(0),
        });
        begun
    }

    // file HEX
    fn open_file(&mut self, n: usize) -> usize
        ensures { (no : ℕ) (st : Standing) → Replies (obey no (file_of (take n self.old.bytes)) st) result self.new }
    {
        replace(&mut self.file, front(&self.bytes, n));
        match self.restart(n) {
            Ok(state) => say_admit(&mut self.out, NO_FAULT, state),
            Err(f) => say_admit(&mut self.out, f, 0),
        }
    }

    // start
    fn start(&mut self, kept: Kept) -> usize
        ensures { Tells (told start_again (take kept.file self.old.file) []) (take kept.file self.old.file) result self.new }
    {
        match self.restart(kept.file) {
            Ok(state) => say_state(&mut self.out, front(&self.state, state)),
            Err(f) => say_refused(&mut self.out, f),
        }
    }

    // `kept` is what the session keeps: the methods from here to `tell_about` are called where a file is open, and so do not test for it again.
    // Each of the four reads it, so each has the clause: as a part of `Session` it would be an Option again.

    // `load` and `at` begin alike: a function for it would need a clause on each of the file, the inputs, the state and what is kept,
    // which `at` goes on with.

    // load STATE
    fn load(&mut self, k: usize, kept: Kept) -> usize
        requires { self.old.kept ≡ Some kept }
        ensures { Tells (load_told (take kept.file self.old.file) (take k self.old.bytes) (take kept.state self.old.state)) (take kept.file self.old.file) result self.new }
    {
        match load_fault(front(&self.file, kept.file), front(&self.bytes, k)) {
            Some(f) => say_refused(&mut self.out, f),
            None => {
                replace(&mut self.state, front(&self.bytes, k));
                self.kept = Some(Kept {
                    file: kept.file,
                    state: k,
                });
                put(&mut self.out, 0, b"loaded\n")
            }
        }
    }

    // cycle INPUTS [LENGTHS]
    fn cycle(&mut self, n: usize, given: Option<Lent>, kept: Kept) -> usize
        requires { self.old.kept ≡ Some kept }
        ensures { Tells (cycle_told (take kept.file self.old.file) (take n self.old.inputs) given (take kept.state self.old.state)) (take kept.file self.old.file) result self.new }
    {
        let file = front(&self.file, kept.file);
        let old = front(&self.state, kept.state);
        let lent = lent_to(file, old, given);
        let next = &mut self.next[..];
        let new = &mut next[..lent.state];
        let values = &mut self.values[..];
        let values = &mut values[..lent.values];
        // Two arms keep the new state: what is answered is told in another way, and one place for both would ask for the outcome twice.
        match ol_sim::cycle(file, old, front(&self.inputs, n), new, values) {
            Cycled::Answered => {
                replace(&mut self.state, new);
                self.kept = Some(Kept {
                    file: kept.file,
                    state: lent.state,
                });
                say_answered(&mut self.out, values, new)
            }
            Cycled::Stopped(f) => {
                replace(&mut self.state, new);
                self.kept = Some(Kept {
                    file: kept.file,
                    state: lent.state,
                });
                say_stopped(&mut self.out, f, new)
            }
            Cycled::Refused(f) => say_refused(&mut self.out, f),
        }
    }

    // at STATE INPUTS [LENGTHS]
    fn at(&mut self, k: usize, n: usize, given: Option<Lent>, kept: Kept) -> usize
        requires { self.old.kept ≡ Some kept }
        ensures { Tells (at_told (take kept.file self.old.file) (take k self.old.bytes) (take n self.old.inputs) given (take kept.state self.old.state)) (take kept.file self.old.file) result self.new }
    {
        match load_fault(front(&self.file, kept.file), front(&self.bytes, k)) {
            Some(f) => say_refused(&mut self.out, f),
            None => {
                replace(&mut self.state, front(&self.bytes, k));
                let kept = Kept {
                    file: kept.file,
                    state: k,
                };
                self.kept = Some(kept);
                self.cycle(n, given, kept)
            }
        }
    }

    // What is asked about the file that is open.
    fn tell_about(&mut self, q: Query, kept: Kept) -> usize
        requires { self.old.kept ≡ Some kept }
        ensures { Tells (told (asked_in q self.old.bytes self.old.inputs) (take kept.file self.old.file) (take kept.state self.old.state)) (take kept.file self.old.file) result self.new }
    {
        match q {
            Query::Order(node) => order(front(&self.file, kept.file), node, &mut self.out),
            Query::Start => self.start(kept),
            Query::Load(k) => self.load(k, kept),
            Query::Cycle(n, given) => self.cycle(n, given, kept),
            Query::At(k, n, given) => self.at(k, n, given, kept),
        }
    }

    // Does what a line asks for.
    fn obey(&mut self, line: &[u8]) -> Result<usize, Reason>
        ensures { MatchResult result (λ n. (no : ℕ) → Replies (reply no line.now (standing self.old)) n self.new) (λ why. (standing self.new ≡ standing self.old) × ((no : ℕ) → reply no line.now (standing self.old) ≡ error_reply no why (standing self.old))) }
    {
        match ask(line, &mut self.bytes, &mut self.inputs)? {
            Request::Silent => Ok(0),
            Request::File(n) => Ok(self.open_file(n)),
            Request::About(q) => {
                let kept = self.kept.ok_or(Reason::NoFile)?;
                Ok(self.tell_about(q, kept))
            }
        }
    }

    // The answer to a line, of so many bytes at the start of `out`: none where the line says nothing.
    pub(crate) fn answer(&mut self, no: usize, line: &[u8]) -> usize
        ensures { Replies (reply no line.now (standing self.old)) result self.new }
    {
        match self.obey(line) {
            Ok(n) => n,
            Err(why) => say_error(&mut self.out, no, why.text()),
        }
    }
}
