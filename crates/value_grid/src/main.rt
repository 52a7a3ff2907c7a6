// Compares ol_value with a list of answers of the unchanged Rust: each operator on each two cells of
// a grid, each cast, each store, each input and each default. make.py says what the list is.
// Which bytes a read gives and whether a write takes them is free.
#![tactic(auto)]

ghost use Rattle.std.specs.Prelude.{◌≡◌, ◌%◌};
ghost use Rattle.ol_spec.specs.Cell.{cell};
ghost use Rattle.ol_spec.specs.Lists.{same};
ghost use Rattle.value_grid.specs.Questions.{grid_value, known_of, value_agrees, outcome_agrees, Asked, says_of, outcome_is, input_is, default_is, cell_is, answered_at, Agreed};

use ol_spec::{Outcome, Value};
use ol_value::{cell, operators, types};
use rows::streams::{CUT, LEFT, Streams};

// How many cells the grid has.
const CELLS: u64 = 42;

// The sections of the list.
#[derive(Clone, Copy)]
enum Section {
    Binary,
    Unary,
    Cast,
    Store,
    Input,
    Default,
    Cell,
}

// ---- an answer

// Whether nine bytes are a value's cell.
fn is_cell(nine: [u8; 9], v: Value) -> bool
    ensures { result ≡ same (cell v) nine }
{
    let mut mine = [0; 9];
    cell::write_cell(v, &mut mine, 0);
    mine == nine
}

// Whether an answer, its first byte and the cell that may follow, is this value. An enum of the two is no shorter: a byte that
// stands alone is never 4, and each test here would need that of it.
fn value_agrees(head: u8, nine: [u8; 9], v: Value) -> bool
    ensures { result ≡ value_agrees head nine v }
{
    match v {
        Value::Bool(b) => head == u8::from(b),
        _ => head == 4 && is_cell(nine, v),
    }
}

// Whether an answer is this outcome.
fn outcome_agrees(head: u8, nine: [u8; 9], o: Outcome) -> bool
    ensures { result ≡ outcome_agrees head nine o }
{
    match o {
        Outcome::Value(v) => value_agrees(head, nine, v),
        Outcome::Failure(c) => head == u8::from(c),
        Outcome::Overflow => head == 19,
    }
}

// Whether the next answer of the list is this outcome.
fn agrees(streams: Streams, o: Outcome) -> bool
    ensures { Asked (outcome_is o) result }
{
    let head = streams.next_byte(CUT);
    let nine = if head == 4 { streams.next(CUT) } else { [0; 9] };
    outcome_agrees(head, nine, o)
}

// Whether a name that a value has is one of the enum's.
fn known(v: Value) -> bool
    ensures { result ≡ known_of v }
{
    match v {
        Value::Enum(name) => name == 100 || name == 200,
        _ => true,
    }
}

// Whether a byte says that it is so.
fn says(mine: bool, head: u8) -> bool
    ensures { result ≡ says_of mine head }
{
    mine == (head == 1)
}

// Whether the list takes an input where in_type does.
fn input_agrees(streams: Streams, code: u8, v: Value) -> bool
    ensures { Asked (input_is code v) result }
{
    let mine = types::in_type(code, v) & known(v);
    says(mine, streams.next_byte(CUT))
}

// Whether the next cell of the list is a type's default.
fn default_agrees(streams: Streams, code: u8) -> bool
    ensures { Asked (default_is code) result }
{
    is_cell(streams.next(CUT), types::default_value(code, 100))
}

// Whether the list takes a further cell where good_cell does.
fn cell_agrees(streams: Streams) -> bool
    ensures { Asked cell_is result }
{
    let nine = streams.next::<9>(CUT);
    let mine = cell::good_cell(&nine, 0) & known(cell::read_cell(&nine, 0));
    says(mine, streams.next_byte(CUT))
}

// ---- a question

// A code, of a small number: its last 8 bits. A cast must lose no bits: `x.to_le_bytes()[0]` is no plainer than `%` and `as`.
fn code(x: u64) -> u8
    ensures { result ≡ x % 256 }
{
    (x % 256) as u8
}

// The k-th cell of the grid.
fn at(grid: &[u8], k: u64) -> Value
    ensures { result ≡ grid_value grid.now k }
{
    let a = usize::from(code(k)) * 9;
    if a + 9 <= grid.len() {
        cell::read_cell(grid, a)
    } else {
        Value::Bool(false)
    }
}

// The t-th question of a section. A function for each section, given to the loop, is no plainer: the definitions name the sections.
fn ask(streams: Streams, section: Section, t: u64, grid: &[u8]) -> bool
    ensures { Asked (answered_at section grid.now t) result }
{
    let v = at(grid, t % CELLS);
    let c = code(t / CELLS);
    match section {
        Section::Binary => {
            let l = at(grid, t / CELLS % CELLS);
            agrees(
                streams,
                operators::eval_binary(code(t / CELLS / CELLS), l, v),
            )
        }
        Section::Unary => agrees(streams, operators::eval_unary(c, v)),
        Section::Cast => agrees(streams, types::cast_value(c, v)),
        Section::Store => agrees(streams, Outcome::Value(types::fit_to(c, v))),
        Section::Input => input_agrees(streams, c, v),
        Section::Default => default_agrees(streams, code(t)),
        Section::Cell => cell_agrees(streams),
    }
}

// ---- the counts

// How many of a section's answers agree.
fn agreed(streams: Streams, section: Section, count: u64, grid: &[u8]) -> u64
    ensures { Agreed section grid.now result count }
{
    let mut sum = 0;
    for t in 0..count {
        sum += u64::from(ask(streams, section, t, grid));
    }
    sum
}

// Asks a section, and writes a line on it.
fn report(streams: Streams, label: &str, section: Section, count: u64, grid: &[u8]) -> u64
    ensures { Agreed section grid.now result count }
{
    let sum = agreed(streams, section, count, grid);
    streams.write_sum(label, sum, count);
    sum
}

// Each section of the list, with a line on each.
fn main(rt: HostRuntime) {
    let streams = Streams {
        input: rt.stdin(),
        output: rt.stdout(),
    };
    let grid: &[u8] = &streams.next::<378>(CUT);
    report(
        streams,
        "binary operators: ",
        Section::Binary,
        20 * CELLS * CELLS,
        grid,
    );
    report(
        streams,
        "unary operators: ",
        Section::Unary,
        2 * CELLS,
        grid,
    );
    report(streams, "casts: ", Section::Cast, 13 * CELLS, grid);
    report(streams, "stores: ", Section::Store, 13 * CELLS, grid);
    report(streams, "inputs: ", Section::Input, 13 * CELLS, grid);
    report(streams, "defaults: ", Section::Default, 13, grid);
    report(streams, "cells: ", Section::Cell, 17, grid);
    streams.tell_left(LEFT);
}
