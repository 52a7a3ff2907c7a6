// The rows of the nodes, the first variants, the nodes' places and the types of the variables.
ghost use Rattle.std.specs.Prelude.{◌≡◌, eqb, map, ℕ, ◌+◌, ◌*◌, ◌≤◌, ◌<◌, get_or, length};
ghost use Rattle.ol_spec.specs.Lists.{concat};
ghost use Rattle.ol_spec.specs.Syntax.{constant_cells};
ghost use Rattle.ol_check.specs.Spans.{starts_from, end_from, behind_variable, behind_enum, Visits, Visited};
ghost use Rattle.ol_check.specs.RowsDone.{EnumsStored, packed_at, type_set, TypesStored, NodeStored, NodesStored, PlacesAre, TablesDone};
ghost use Rattle.ol_check.specs.RowsDone.{cells_for, cells_from, cells_by, counts_put, counted_from, SmallRows};
ghost use Rattle.ol_check.specs.Clashing.{ConstantsAt};
ghost use Rattle.ol_tables.specs.At.{file_at};
ghost use Rattle.ol_tables.specs.Heads.{ty_length_at};
ghost use Rattle.ol_tables.specs.Stands.{FileReads};
ghost use Rattle.ol_tables.specs.Numbers.{numbers};

use ol_spec::type_codes::{ARRAY, ENUM};
use ol_tables::bytes::{byte, entry, name, put, put_two};
use ol_tables::heads::{skip, ty_size};
use ol_tables::tables::{FileRows, Row};

// Where the section of names at `at` ends.
pub(crate) fn names_end(file: &[u8], at: usize) -> usize
    requires { at ≤ 40000 }
    ensures { result ≡ behind_enum file.now at }
{
    at + 1 + 2 * byte(file, at)
}

// Where the variable at `at` ends.
pub(crate) fn variable_end(file: &[u8], at: usize) -> usize
    requires { at ≤ 65536 }
    ensures { result ≡ behind_variable file.now at }
{
    at + 2 + ty_size(file, at + 2)
}

// So many variables from `at` on, the first as number `first`: at each one `visit` changes the table, given its number and where it stands. Where they end is answered.
// A count stays a number below 256, here and in four functions: it is what `byte` answers, and a `u8` would be cast back at each use.
pub(crate) fn each_variable<F: Fn(&mut [u8], usize, usize)>(
    file: &[u8],
    table: &mut [u8],
    first: usize,
    count: usize,
    at: usize,
    visit: F,
) -> usize
    requires few { (first ≤ 65536) × (count < 256) }
    requires near { at ≤ 40000 }
    requires taken { (y : _) (i p : ℕ) → i < count → p ≤ at + 6 * i → F.pre visit y (first + i) p }
    ensures ends { result ≡ end_from (behind_variable file.now) count at }
    ensures visited { Visits (λ t i p u. Visited (λ y y'. F.post visit y i p tt y') t u) first (starts_from (behind_variable file.now) count at) table.old table.new }
{
    let mut next = at;
    for i in 0..count {
        visit(table, first + i, next);
        next = variable_end(file, next);
    }
    next
}

// So many enums from `at` on: the first variant of each is stored, and where they end is answered.
// A count, and no iterator over enums, here and in two walks: this one tells where they end, the others want each one's count, and each step is one sum.
fn enum_rows(file: &[u8], rows: &mut FileRows, count: usize, at: usize) -> usize
    requires { (count ≤ 16) × (at ≤ 20000) }
    ensures { EnumsStored file.now (numbers rows.old) (numbers rows.new) count at result }
{
    let mut next = at;
    for e in 0..count {
        rows.put_first(e, name(file, next + 1));
        next = names_end(file, next);
    }
    next
}

// Whether the type at `at` is an array's.
pub(crate) fn is_array(file: &[u8], at: usize) -> bool
    ensures { result ≡ eqb (get_or file.now at 0) 13 }
{
    byte(file, at) == usize::from(ARRAY)
}

// The length of an array of the type at `at`; 0 of a scalar type.
fn array_length(file: &[u8], at: usize) -> usize
    requires { at ≤ 45000 }
    ensures { (result ≡ ty_length_at file.now at) × (result < 256) }
{
    if is_array(file, at) {
        byte(file, at + 1)
    } else {
        0
    }
}

// The scalar type at `at` in one byte: its code, and 16 times an enum's number, which is below 16.
fn packed(file: &[u8], at: usize) -> usize
    requires { at ≤ 45000 }
    ensures { (result ≡ packed_at file.now at) × (result < 256) }
{
    let code = byte(file, at);
    if code == usize::from(ENUM) {
        usize::from(ENUM) + 16 * (byte(file, at + 1) % 16)
    } else {
        code
    }
}

// Stores the type at `at` in two bytes from p on: its scalar type or its elements', and an array's length.
pub(crate) fn put_type(file: &[u8], types: &mut [u8], p: usize, at: usize)
    requires { (p < 9300000000000000000) × (at ≤ 42000) }
    ensures { types.new ≡ type_set types.old p file.now at }
{
    let element = if is_array(file, at) { at + 2 } else { at };
    put(types, p, packed(file, element) as u8);
    put(types, p + 1, array_length(file, at) as u8);
}

// How many cells a variable has whose array has this length; 0 is a scalar's.
fn cells_for(n: usize) -> usize
    ensures { result ≡ cells_for n }
{
    if n == 0 { 1 } else { n }
}

// How many cells the first i of the variables have whose types stand from `at` on.
fn cells_before(types: &[u8], at: usize, i: usize) -> usize
    requires { (at < 9250000000000000000) × (i < 1024) }
    ensures { (result ≡ cells_from types.now at i) × (result ≤ 256 * i) }
{
    let mut cells = 0;
    for j in 0..i {
        cells += cells_for(byte(types, at + 2 * j + 1));
    }
    cells
}

// The same, given whether arrays are declared: where none is, each variable has one.
pub(crate) fn cells_by(arrays: bool, types: &[u8], at: usize, i: usize) -> usize
    requires { (at < 9250000000000000000) × (i < 1024) }
    ensures { (result ≡ cells_by arrays types.now at i) × (result ≤ 256 * i) }
{
    if arrays {
        cells_before(types, at, i)
    } else {
        i
    }
}

// So many variables from `at` on: their types are stored from `first` on, and where they end is
// answered.
fn variable_types(file: &[u8], types: &mut [u8], first: usize, count: usize, at: usize) -> usize
    requires { (first < 9250000000000000000) × (count < 256) × (at ≤ 40000) }
    ensures { TypesStored file.now types.old types.new first count at result }
{
    each_variable(file, types, 0, count, at, |types, i, at| {
        put_type(file, types, first + 2 * i, at + 2)
    })
}

// Stores four numbers of two bytes each from p on: where a node starts, and how many cells its inputs have, its inputs and outputs, and all its variables.
#[tactic(auto, unfolding(crate::specs::RowsDone::counts_put))]
fn put_counts(tab: &mut [u8], p: usize, at: usize, inputs: usize, outputs: usize, all: usize)
    requires { p < 256 }
    ensures { tab.new ≡ counts_put tab.old p at inputs outputs all }
{
    put_two(tab, p, at);
    put_two(tab, p + 2, inputs);
    put_two(tab, p + 4, outputs);
    put_two(tab, p + 6, all);
}

// The row of node `k`, which stands at `at`, its four numbers, as if each variable had one cell, and the types of its variables, which stand at
// its place among the plans. In `tab` the nodes' numbers come first; the plans start at `plans`.
// `tab` is one slice with a number, here and in three functions: the clauses tell of one list that the bytes between numbers and types stay.
fn node_row(file: &[u8], rows: &mut FileRows, tab: &mut [u8], plans: usize, k: usize, at: usize)
    requires { (k < 32) × (at ≤ 32768) × (plans < 9240000000000000000) }
    ensures { NodeStored file.now (numbers rows.old) (numbers rows.new) tab.old tab.new plans k at }
{
    let types = plans + at;
    let inputs = byte(file, at + 1);
    let o = variable_types(file, tab, types, inputs, at + 2);
    let outputs = byte(file, o);
    let l = variable_types(file, tab, types + 2 * inputs, outputs, o + 1);
    let locals = byte(file, l);
    let q = variable_types(file, tab, types + 2 * inputs + 2 * outputs, locals, l + 1);
    let variables = inputs + outputs + locals;
    put_counts(tab, 8 * k, at, inputs, inputs + outputs, variables);
    let row = Row {
        kind: byte(file, at),
        equations: q + 1,
        inputs,
        outputs,
        variables,
        count: byte(file, q),
        size: 0,
        place: at,
    };
    rows.put_node(k, row);
}

// So many nodes, each at its place.
fn node_rows(file: &[u8], places: &[usize], rows: &mut FileRows, tab: &mut [u8], plans: usize)
    requires { (length places.now ≤ 32) × ((k : ℕ) → k < length places.now → get_or places.now k 0 ≤ 32768) × (plans < 9240000000000000000) }
    ensures { NodesStored file.now places.now (numbers rows.old) (numbers rows.new) tab.old tab.new plans (length places.now) }
{
    for (k, at) in places.iter().enumerate() {
        node_row(file, rows, tab, plans, k, *at);
    }
}

// The numbers of so many nodes anew, by the cells of their variables. In `tab` the nodes' numbers come first; the plans start at `plans`.
pub fn count_cells(rows: &FileRows, tab: &mut [u8], plans: usize, count: usize)
    requires { (count ≤ 32) × SmallRows (numbers rows.now) count × (plans < 9240000000000000000) }
    ensures { tab.new ≡ counted_from (numbers rows.now) plans 0 count tab.old }
{
    for k in 0..count {
        let row = rows.node(k);
        let at = row.place;
        let inputs = row.inputs;
        let outputs = row.outputs;
        let variables = row.variables;
        let types = plans + at;
        let a = cells_before(tab, types, inputs);
        let b = cells_before(tab, types, inputs + outputs);
        let c = cells_before(tab, types, variables);
        put_counts(tab, 8 * k, at, a, b, c);
    }
}

// Where the counts of a file's constants and of its nodes stand.
#[derive(Clone, Copy)]
pub struct Sections {
    pub constants: usize,
    pub nodes: usize,
}

// Where so many enums from `at` on end.
fn enums_end(file: &[u8], count: usize, at: usize) -> usize
    requires { (count ≤ 16) × (at ≤ 20000) }
    ensures { result ≡ end_from (behind_enum file.now) count at }
{
    let mut next = at;
    for _ in 0..count {
        next = names_end(file, next);
    }
    next
}

// How many cells so many constants from `at` on have.
fn cells_in(file: &[u8], count: usize, at: usize) -> usize
    requires { ConstantsAt file.now count at }
    ensures { result ≡ length (concat (map constant_cells (file_at file.now).constants)) }
{
    let mut next = at;
    let mut cells = 0;
    for _ in 0..count {
        cells += cells_for(array_length(file, next + 2));
        next = skip(file, 1, variable_end(file, next));
    }
    cells
}

// How many cells the constants have of a file that reads without fault.
pub fn constant_cells(file: &[u8]) -> usize
    requires { FileReads file.now }
    ensures { result ≡ length (concat (map constant_cells (file_at file.now).constants)) }
{
    let c = enums_end(file, byte(file, 1), 2);
    cells_in(file, byte(file, c), c + 1)
}

// The rows, but for the sizes, the nodes' numbers, as if each variable had one cell, and the types of a file that reads without
// fault, given the places of its nodes. The count of the nodes stands before the first. `tab` has the
// nodes' numbers, the slots, which are left, and from `plans` on the plans, of which the types are
// written.
pub fn rows_of(
    file: &[u8],
    places: &[usize],
    rows: &mut FileRows,
    tab: &mut [u8],
    plans: usize,
) -> Sections
    requires { FileReads file.now × PlacesAre (file_at file.now) places.now × (256 ≤ plans) × (plans + length file.now ≤ length tab.old) }
    ensures { TablesDone (file_at file.now) (numbers rows.new) tab.old tab.new plans result }
{
    let c = enum_rows(file, rows, byte(file, 1), 2);
    let n = entry(places, 0) - 1;
    node_rows(file, &places[..byte(file, n)], rows, tab, plans);
    Sections {
        constants: c,
        nodes: n,
    }
}
