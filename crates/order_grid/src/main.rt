// Compares the reader of ol_ir and the ordering of ol_order with a list of answers of the oracle:
// files that read, files with each of the faults 1 to 5, number and place, and orders of nodes.
// make.py says what the list is. Free are which bytes a read gives and whether a write takes them:
// what `next_row` reads is free, and `main` only writes.
#![tactic(auto)]

ghost use Rattle.std.specs.Prelude.{◌≡◌, ◌+◌, ◌≤◌, ◌<◌, length, replicate};
ghost use Rattle.io.specs.Counts.{IsPrefixLen};
ghost use Rattle.ol_spec.specs.Answers.{sorted_fault};
ghost use Rattle.ol_spec.specs.Cycle.{ordering};
ghost use Rattle.ol_spec.specs.Limits.{relay_loader};
ghost use Rattle.rows.specs.Rows.{all_agree};
ghost use Rattle.order_grid.specs.Questions.{row_of, order_row, order_agrees, refusal_agrees, read_agrees, Asked, Tallied};

use ol_ir::project::read_file;
use ol_order::evaluation_order;
use ol_spec::Fault;
use rows::streams::{CUT, LEFT, Streams};

// What each entry of a lent buffer holds before a call.
const MARK: u8 = 170;

// What a section of the list asks of each of its files.
// A function in its place would take two clauses on what it counts, at each of the four functions that hand it on.
#[derive(Clone, Copy)]
enum Section {
    Reading,
    Orders,
}

// The next two bytes of the list, how many bytes of a buffer it means.
fn next_length(streams: Streams, buf: &[u8]) -> usize
    ensures { IsPrefixLen result buf.now }
{
    streams.next_number(CUT).min(buf.len())
}

// The next answer of the list: a fault, or number 0 at place 0. A row has it as the list does, and rows are
// compared as they stand: a Result would be taken apart again.
fn next_answer(streams: Streams) -> Fault
    ensures { result.place < 65536 }
{
    let number = streams.next_byte(CUT);
    let place = streams.next_number(CUT);
    Fault { number, place }
}

// The next two bytes of the list, how many entries a buffer has: at most 512.
fn next_entries(streams: Streams) -> usize
    ensures { result ≤ 512 }
{
    streams.next_number(CUT).min(512)
}

// What an entry of the buffer holds after a call, of an order the list's next byte, else its mark.
fn next_entry(streams: Streams, done: bool) -> u8
    ensures { result < 256 }
{
    if done { streams.next_byte(CUT) } else { MARK }
}

// The next row of the list.
fn next_row(streams: Streams, row: &mut [u64])
    requires { 2 ≤ length row.old }
    ensures { length row.new ≡ length row.old }
{
    let f = next_answer(streams);
    row[0] = u64::from(f.number);
    row[1] = f.place as u64;
    for entry in &mut row[2..] {
        *entry = u64::from(next_entry(streams, f.number == 0));
    }
}

// ---- a question

// What a reading or an ordering answers, as the list has it: number 0 for no fault, which in ol_spec's types is `Ok`.
fn answer(r: Result<(), Fault>) -> Fault
    ensures { result ≡ sorted_fault r }
{
    match r {
        Ok(()) => Fault {
            number: 0,
            place: 0,
        },
        Err(f) => f,
    }
}

// Writes an answer, and what a buffer holds, as a row: a list of numbers, since it is compared as one, entry by entry.
fn put_row(f: Fault, entries: &[usize], row: &mut [u64])
    requires { length row.old ≡ length entries.now + 2 }
    ensures { row.new ≡ row_of f entries.now }
{
    row[0] = u64::from(f.number);
    row[1] = f.place as u64;
    // Over `row[2..].iter_mut().zip(entries)` it did not prove: no invariant of that loop can name what the row holds.
    for (i, entry) in entries.iter().enumerate() {
        row[i + 2] = *entry as u64;
    }
}

// Whether a node's ordering gives this row.
fn order_gives(
    file: &[u8],
    node: usize,
    wanted: &[u64],
    buffer: &mut [usize],
    found: &mut [u64],
) -> bool
    requires { length found.old ≡ length buffer.old + 2 }
    ensures { result ≡ all_agree (order_row (ordering relay_loader file.now node buffer.old)) wanted.now }
{
    let f = answer(evaluation_order(file, node, buffer));
    put_row(f, buffer, found);
    rows::agrees(found, wanted)
}

// 512 marks.
fn marks() -> [usize; 512]
    ensures { result ≡ replicate 512 170 }
{
    [MARK as usize; 512]
}

// Room for a row.
fn room() -> [u64; 514]
    ensures { 514 ≡ length result }
{
    [0; 514]
}

// Whether a node's ordering gives this row, in a buffer of marks.
fn order_agrees(file: &[u8], node: usize, wanted: &[u64]) -> bool
    requires { (2 ≤ length wanted.now) × (length wanted.now ≤ 514) }
    ensures { result ≡ order_agrees file.now node wanted.now }
{
    let mut buffer = marks();
    let mut found = room();
    let m = wanted.len();
    let n = m - 2;
    order_gives(file, node, wanted, &mut buffer[..n], &mut found[..m])
}

// Whether the ordering refuses a file as its reading does, and writes nothing. Number 0 is the list's for no fault.
fn refusal_agrees(file: &[u8], theirs: Fault) -> bool
    ensures { result ≡ refusal_agrees file.now theirs }
{
    let mark = u64::from(MARK);
    let wanted = [
        u64::from(theirs.number),
        theirs.place as u64,
        mark,
        mark,
        mark,
    ];
    theirs.number == 0 || order_agrees(file, 0, &wanted)
}

// Whether a file's reading gives this answer, and the ordering too where it is a fault.
fn read_agrees(file: &[u8], theirs: Fault) -> bool
    ensures { result ≡ read_agrees file.now theirs }
{
    answer(read_file(file)) == theirs && refusal_agrees(file, theirs)
}

// Whether the next question on a file's orders is answered as the list says.
fn next_agrees(streams: Streams, file: &[u8]) -> bool
    ensures { Asked file.now result }
{
    let node = streams.next_number(CUT);
    let m = next_entries(streams) + 2;
    let mut wanted = room();
    next_row(streams, &mut wanted[..m]);
    order_agrees(file, node, &wanted[..m])
}

// ---- the counts

// How many questions are answered as the list says, and how many there are. Of one file they are few (`all_bound`), so that a
// section's can be added up without overflow; a section's sum is `Tallied` too, and not so few: the bound is a clause of its own.
#[derive(Clone, Copy)]
struct Tally {
    good: u64,
    all: u64,
}

// A file's reading, and its refusal by the ordering: one question.
fn count_reading(streams: Streams, file: &[u8]) -> Tally
    ensures tallied { Tallied result.good result.all }
    ensures all_bound { result.all < 65536 }
{
    Tally {
        good: u64::from(read_agrees(file, next_answer(streams))),
        all: 1,
    }
}

// A file's orderings.
fn count_orders(streams: Streams, file: &[u8]) -> Tally
    ensures tallied { Tallied result.good result.all }
    ensures all_bound { result.all < 65536 }
{
    let count = streams.next_number(CUT);
    let mut good = 0;
    for _ in 0..count {
        good += u64::from(next_agrees(streams, file));
    }
    Tally {
        good,
        all: count as u64,
    }
}

// The questions on the next file of the list, which is put into zeros.
fn count_file_in(streams: Streams, section: Section, zeros: &mut [u8]) -> Tally
    ensures tallied { Tallied result.good result.all }
    ensures all_bound { result.all < 65536 }
{
    let given = next_length(streams, zeros);
    streams.fill(&mut zeros[..given], CUT);
    let all = next_length(streams, zeros);
    // A trait with a method for each section would state both clauses once more, in place of this match.
    match section {
        Section::Reading => count_reading(streams, &zeros[..all]),
        Section::Orders => count_orders(streams, &zeros[..all]),
    }
}

// The questions on the next file of the list.
fn count_file(streams: Streams, section: Section) -> Tally
    ensures tallied { Tallied result.good result.all }
    ensures all_bound { result.all < 65536 }
{
    let mut zeros = io::large_buffer();
    count_file_in(streams, section, &mut zeros)
}

// The questions on a section's files.
fn count_files(streams: Streams, section: Section, files: usize) -> Tally
    requires { files < 65536 }
    ensures { Tallied result.good result.all }
{
    let mut good: u64 = 0;
    let mut all: u64 = 0;
    for _ in 0..files {
        let one = count_file(streams, section);
        good += one.good;
        all += one.all;
    }
    Tally { good, all }
}

// Compares a section, and writes a line on it.
fn report(streams: Streams, label: &str, section: Section) -> Tally
    ensures { Tallied result.good result.all }
{
    let sum = count_files(streams, section, streams.next_number(CUT));
    streams.write_sum(label, sum.good, sum.all);
    sum
}

// Each section of the list, with a line on each.
fn main(rt: HostRuntime) {
    let streams = Streams {
        input: rt.stdin(),
        output: rt.stdout(),
    };
    report(streams, "files that read: ", Section::Reading);
    report(streams, "fault 1: ", Section::Reading);
    report(streams, "fault 2: ", Section::Reading);
    report(streams, "fault 3: ", Section::Reading);
    report(streams, "fault 4: ", Section::Reading);
    report(streams, "fault 5: ", Section::Reading);
    report(streams, "chains: ", Section::Orders);
    report(streams, "rings: ", Section::Orders);
    report(streams, "self-reads: ", Section::Orders);
    report(streams, "double definitions: ", Section::Orders);
    report(streams, "undeclared names: ", Section::Orders);
    report(streams, "forms: ", Section::Orders);
    report(streams, "80 equations: ", Section::Orders);
    report(streams, "random nodes: ", Section::Orders);
    report(streams, "wrong buffers: ", Section::Orders);
    report(streams, "absent nodes: ", Section::Orders);
    streams.tell_left(LEFT);
}
