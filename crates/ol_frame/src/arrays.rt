// Arrays: the length of an array expression, the cells of an array name, elements, and comparison.
ghost use Rattle.std.specs.Prelude.{◌≡◌, ℕ, ◌++◌, ◌+◌, ◌*◌, ◌≤◌, ◌<◌, cond, length, take, drop, get_or};
ghost use Rattle.ol_spec.specs.Lists.{maybe};
ghost use Rattle.ol_spec.specs.Shapes.{output_shape};
ghost use Rattle.ol_spec.specs.Operators.{pair, equal};
ghost use Rattle.ol_spec.specs.Cell.{value_of, values_of};
ghost use Rattle.ol_spec.specs.Eval.{element_at, equal_cells};
ghost use Rattle.ol_spec.specs.declared.Cause.TheVariants as Why;
ghost use Rattle.ol_tables.specs.At.{node_in, expr_at};
ghost use Rattle.ol_tables.specs.Table.{tab_of, rows_of, consts_of};
ghost use Rattle.ol_tables.specs.Tables.{slots_from, name_cell_at};
ghost use Rattle.ol_frame.specs.Walk.{nodes_in};
ghost use Rattle.ol_frame.specs.Plans.{Program, Plan, Planned, span_in};
ghost use Rattle.ol_frame.specs.Arrays.{Array, var_length, var_bytes, element_out, equal_cell, compared_by};
ghost use Rattle.ol_frame.specs.Outcomes.{ended_out};
ghost use Rattle.ol_spec.specs.declared.Outcome.TheVariants as Out;
ghost use Rattle.ol_frame.specs.Stores.{Gathers};
ghost use Rattle.ol_frame.specs.declared.outcomes.Ending.TheVariants as End;

use crate::copies::{copy, passed};
use crate::equations::is_map;
use crate::frame::Frame;
use crate::outcomes::{Ending, test_of};
use crate::tables::{Slot, length_of, named_length, row, slot_at};
use ol_spec::{Cause, Outcome, Value};
use ol_tables::form::Form;
use ol_tables::table::consts_from;
use ol_tables::tables::{INPUTS, OUTPUTS};
use ol_value::cell::{read_cell, write_cell};
use ol_value::operators::eval_binary;

// The length of the one output of node k, if it is an array, else 0.
fn output_length(file: &[u8], tab: &[u8], k: usize) -> usize
    requires { Program file.now (tab_of tab.now) (rows_of tab.now) × (k < nodes_in file.now) }
    ensures { result ≡ maybe 0 (λ n. n) (output_shape (node_in file.now k).outputs) }
{
    if row(tab, k, OUTPUTS) == 1 {
        length_of(tab, k, row(tab, k, INPUTS))
    } else {
        0
    }
}

// The length of the array that the expression at `at` is, if it is one, else 0. It is put into its callers: measured faster.
#[inline(always)]
#[cycle(lengths)]
pub fn array_length(file: &[u8], tab: &[u8], at: usize, level: usize) -> usize
    requires { Planned file.now (tab_of tab.now) (rows_of tab.now) (consts_of tab.now) level at }
    ensures { (node : ℕ) → Plan file.now (tab_of tab.now) (rows_of tab.now) (consts_of tab.now) node level 1 at → result ≡ span_in file.now node (expr_at file.now level at) }
{
    match Form::at(file, at) {
        Form::Var => named_length(tab, at),
        Form::Pre => {
            if Form::Var.is_at(file, at + 1) {
                named_length(tab, at + 1)
            } else {
                0
            }
        }
        Form::Call => output_length(file, tab, usize::from(file[at + 1])),
        Form::Literal => usize::from(file[at + 1]),
        Form::Iterator => iterator_length(file, tab, at, level),
        _ => 0,
    }
}

// The same of the iterator at `at`: a map is as long as its first array. It stays out of `array_length`, which the compiler then puts into its callers.
#[cycle(lengths)]
#[inline(never)]
fn iterator_length(file: &[u8], tab: &[u8], at: usize, level: usize) -> usize
    requires { Planned file.now (tab_of tab.now) (rows_of tab.now) (consts_of tab.now) level at × (get_or file.now at 0 ≡ 15) }
    ensures { (node : ℕ) → Plan file.now (tab_of tab.now) (rows_of tab.now) (consts_of tab.now) node level 1 at → result ≡ span_in file.now node (expr_at file.now level at) }
{
    if is_map(file, at) {
        array_length(file, tab, at + 4, level - 1)
    } else {
        0
    }
}

// The n cells of the array whose Var is at `at`, of which `cells` are its node's.
fn named_cells<'a>(tab: &'a [u8], at: usize, n: usize, cells: &'a [u8]) -> &'a [u8]
    requires { (slots_from + at + 3 ≤ length (tab_of tab.now)) × (name_cell_at (tab_of tab.now) (at + 1) < 65535) × (9 * n ≤ length (var_bytes (tab_of tab.now) (consts_of tab.now) cells.now at)) × (1 ≤ n) }
    ensures { result.now ≡ take (9 * n) (var_bytes (tab_of tab.now) (consts_of tab.now) cells.now at) }
{
    match slot_at(tab, at + 1) {
        Slot::Variable(c) => &cells[9 * c..9 * (c + n)],
        Slot::Constant(c) => {
            let a = consts_from(tab) + 9 * c;
            &tab[a..a + 9 * n]
        }
        Slot::Other => &[],
    }
}

// The cells of the array whose Var is at `at` are copied to the front of `to`.
pub fn present_cells(tab: &[u8], frame: &Frame, at: usize, to: &mut [u8])
    requires { Array (tab_of tab.now) (consts_of tab.now) frame.now.cells.now at × (1 ≤ var_length (tab_of tab.now) at) × (9 * var_length (tab_of tab.now) at ≤ length to.old) }
    ensures { to.new ≡ take (9 * var_length (tab_of tab.now) at) (var_bytes (tab_of tab.now) (consts_of tab.now) frame.now.cells.now at) ++ drop (9 * var_length (tab_of tab.now) at) to.old }
{
    let n = named_length(tab, at);
    copy(named_cells(tab, at, n, frame.cells), to);
}

// The cells before of the array whose Var is at `at`: cold at a first cycle.
pub fn previous_cells(tab: &[u8], frame: &Frame, at: usize, to: &mut [u8]) -> Ending
    requires { Array (tab_of tab.now) (consts_of tab.now) frame.now.before.now at × (1 ≤ var_length (tab_of tab.now) at) × (9 * var_length (tab_of tab.now) at ≤ length to.old) }
    ensures { (result ≡ cond frame.now.first (End.Failed Why.Cold) End.Values) × (to.new ≡ cond frame.now.first to.old (take (9 * var_length (tab_of tab.now) at) (var_bytes (tab_of tab.now) (consts_of tab.now) frame.now.before.now at) ++ drop (9 * var_length (tab_of tab.now) at) to.old)) }
{
    if frame.first {
        Ending::Failed(Cause::Cold)
    } else {
        let n = named_length(tab, at);
        copy(named_cells(tab, at, n, frame.before), to);
        Ending::Values
    }
}

// Element i of an array of n cells: outside it is out of range.
fn element_at(n: usize, i: i64, cells: &[u8]) -> Outcome
    requires { (n ≤ 255) × (9 * n ≤ length cells.now) }
    ensures { result ≡ element_at (values_of n cells.now) i }
{
    if 0 <= i && i < n as i64 {
        Outcome::Value(read_cell(cells, 9 * (i as usize)))
    } else {
        Outcome::Failure(Cause::Range)
    }
}

// Element `index` of an array of n cells; 0 is a scalar's length. An index that is no Int, or of a scalar, fails.
pub fn element(n: usize, index: Outcome, cells: &[u8]) -> Outcome
    requires { (n ≤ 255) × (9 * n ≤ length cells.now) }
    ensures { result ≡ element_out n (values_of n cells.now) index }
{
    match index {
        Outcome::Value(Value::Int(i)) if n != 0 => element_at(n, i, cells),
        Outcome::Value(_) => Outcome::Failure(Cause::Other),
        Outcome::Failure(c) => Outcome::Failure(c),
        Outcome::Overflow => Outcome::Overflow,
    }
}

// Whether two values are equal, a single and a double by their number.
fn equal_values(v: Value, w: Value) -> bool
    ensures { result ≡ equal (pair v w) }
{
    test_of(eval_binary(EQ, v, w)).unwrap_or(false)
}

// The code of Eq.
const EQ: u8 = 4;

// The last tag, as which one above it is read.
const LAST_TAG: u8 = 4;

// Whether two cells, each at `at`, are of one tag, and equal.
fn equal_cell(left: &[u8], right: &[u8], at: usize) -> bool
    requires { (at + 9 ≤ length left.now) × (at + 9 ≤ length right.now) }
    ensures { result ≡ equal_cell (value_of (take 9 (drop at left.now))) (value_of (take 9 (drop at right.now))) }
{
    left[at].min(LAST_TAG) == right[at].min(LAST_TAG)
        && equal_values(read_cell(left, at), read_cell(right, at))
}

// Whether an array of n cells and one of m are equal: as long, and each two cells of one tag and equal.
pub fn equal_cells(n: usize, m: usize, left: &[u8], right: &[u8]) -> bool
    requires { (9 * n ≤ length left.now) × (9 * m ≤ length right.now) }
    ensures { result ≡ equal_cells (values_of n left.now) (values_of m right.now) }
{
    if n != m {
        return false;
    }
    for i in 0..n {
        if !equal_cell(left, right, 9 * i) {
            return false;
        }
    }
    true
}

// What Eq, or else Neq, comes to between two arrays, where the second ended so.
pub fn compared(op: u8, end: Ending, equal: bool) -> Outcome
    ensures { result ≡ ended_out end (compared_by op equal) }
{
    match end {
        Ending::Values => Outcome::Value(Value::Bool(equal == (op == EQ))),
        Ending::Failed(c) => Outcome::Failure(c),
        Ending::Overflowed => Outcome::Overflow,
    }
}

// The outcome of an expression whose array did not end with values.
pub fn stopped(end: Ending) -> Outcome
    ensures { result ≡ ended_out end (Out.Failure Why.Other) }
{
    match end {
        Ending::Values => Outcome::Failure(Cause::Other),
        Ending::Failed(c) => Outcome::Failure(c),
        Ending::Overflowed => Outcome::Overflow,
    }
}

// Element j of each of c arrays of n cells, which stand one behind the other, fitted to the inputs of node k, is put into `args`.
pub fn gather(tab: &[u8], k: usize, n: usize, c: usize, j: usize, arrays: &[u8], args: &mut [u8])
    requires { (slots_from ≤ length (tab_of tab.now)) × (k < 32) × (n ≤ 255) × (c ≤ 32) × (j < n) × (9 * n * c ≤ length arrays.now) × (9 * c ≤ length args.old) }
    ensures { Gathers (tab_of tab.now) (rows_of tab.now) k n c j arrays.now args.new }
{
    for i in 0..c {
        let v = read_cell(arrays, 9 * (n * i + j));
        write_cell(passed(tab, Some(k), i, v), args, 9 * i);
    }
}
