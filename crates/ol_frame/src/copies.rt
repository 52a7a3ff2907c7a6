// Cells: copied, passed on and stored.
ghost use Rattle.std.specs.Prelude.{◌≡◌, ℕ, [], ◌∷◌, ◌++◌, ◌+◌, ◌-◌, ◌*◌, ◌≤◌, ◌<◌, length, take, drop, MatchOption};
ghost use Rattle.ol_spec.specs.Cell.{cell, cells, value_of, values_of};
ghost use Rattle.ol_spec.specs.Eval.{Outcomes, single, several};
ghost use Rattle.ol_tables.specs.Tables.{slots_from, slot_at};
ghost use Rattle.ol_tables.specs.Table.{tab_of, rows_of};
ghost use Rattle.ol_frame.specs.Outcomes.{ending_of};
ghost use Rattle.ol_frame.specs.Stores.{PassedOn, Storable, Stores, StoresCells, StoresOut, Assignable, Assigns, Leaves, Fitted, FitsPart, Puts, cells_under, cells_under_all};

use crate::outcomes::{Ending, end_of, kept};
use crate::tables::{cells_for, code_of, defined_at, first_cell, length_of};
use ol_spec::{Cause, Outcome, Value};
use ol_value::cell::{read_cell, write_cell};
use ol_value::types::fit_to;

// As many bytes as both have. By a loop: `copy_from_slice` asks memmove of the C library, where only memcpy and memset are to be asked for.
pub fn copy(from: &[u8], to: &mut [u8])
    ensures { to.new ≡ take (length to.old) from.now ++ drop (length from.now) to.old }
{
    let n = from.len().min(to.len());
    for (i, b) in from[..n].iter().enumerate() {
        to[i] = *b;
    }
}

// The cells from index `first` up to `last`.
pub fn copy_cells(first: usize, last: usize, from: &[u8], to: &mut [u8])
    requires { (first ≤ last) × (last ≤ 3584) × (9 * last ≤ length from.now) × (9 * last ≤ length to.old) }
    ensures { to.new ≡ take (9 * first) to.old ++ (take (9 * last - 9 * first) (drop (9 * first) from.now) ++ drop (9 * last) to.old) }
{
    let a = 9 * first;
    let b = 9 * last;
    copy(&from[a..b], &mut to[a..b]);
}

// n cells, each as its value's nine bytes.
pub fn write_cells(n: usize, from: &[u8], to: &mut [u8])
    requires { (n ≤ 3584) × (9 * n ≤ length from.now) × (9 * n ≤ length to.old) }
    ensures { to.new ≡ cells (values_of n from.now) ++ drop (9 * n) to.old }
{
    for i in 0..n {
        let p = 9 * i;
        let v = kept(read_cell(from, p));
        write_cell(v, to, p);
    }
}

// A value as it is passed on: fitted to variable i of the node that is called, or as it is. It is put into its callers: measured faster.
#[inline(always)]
pub fn passed(tab: &[u8], callee: Option<usize>, i: usize, v: Value) -> Value
    requires { (slots_from ≤ length (tab_of tab.now)) × MatchOption callee (Unit {0}) (λ k. k < 32) × (i < 112) }
    ensures { PassedOn (tab_of tab.now) callee i v result × (value_of (cell result) ≡ result) }
{
    match callee {
        Some(k) => {
            let c = code_of(tab, k, i);
            kept(fit_to(c, kept(v)))
        }
        None => kept(v),
    }
}

// Stores a value, fitted, in the cell of the name that stands at `at`, a variable of node k.
fn store(tab: &[u8], k: usize, at: usize, v: Value, cells: &mut [u8])
    requires { Storable (tab_of tab.now) (rows_of tab.now) k at cells.old }
    ensures { Stores (tab_of tab.now) (rows_of tab.now) k at (v ∷ []) cells.old cells.new }
{
    let s = defined_at(tab, at);
    let c = code_of(tab, k, s);
    let w = kept(fit_to(c, kept(v)));
    write_cell(w, cells, 9 * first_cell(tab, k, s));
}

// Stores so many cells, each fitted to the type with this code, from cell `first` on.
fn store_cells(code: u8, from: &[u8], count: usize, first: usize, cells: &mut [u8])
    requires { (9 * count ≤ length from.now) × (9 * (first + count) ≤ length cells.old) }
    ensures { StoresCells code first count from.now cells.old cells.new }
{
    for i in 0..count {
        let v = read_cell(from, 9 * i);
        let w = kept(fit_to(code, kept(v)));
        write_cell(w, cells, 9 * (first + i));
    }
}

// Stores the cells of the name that stands at `at`, a variable of node k; how many it has is answered.
fn store_name(tab: &[u8], k: usize, at: usize, from: &[u8], cells: &mut [u8]) -> usize
    requires { Storable (tab_of tab.now) (rows_of tab.now) k at cells.old × (9 * cells_under (tab_of tab.now) k at ≤ length from.now) }
    ensures { (result ≡ cells_under (tab_of tab.now) k at) × Stores (tab_of tab.now) (rows_of tab.now) k at (values_of (cells_under (tab_of tab.now) k at) from.now) cells.old cells.new }
{
    let s = defined_at(tab, at);
    let n = cells_for(length_of(tab, k, s));
    store_cells(code_of(tab, k, s), from, n, first_cell(tab, k, s), cells);
    n
}

// Stores an outcome's value, if it has one; answers how the equation ended.
pub(crate) fn store_out(tab: &[u8], k: usize, at: usize, o: Outcome, cells: &mut [u8]) -> Ending
    requires { Storable (tab_of tab.now) (rows_of tab.now) k at cells.old }
    ensures { (result ≡ ending_of (several o)) × StoresOut (tab_of tab.now) (rows_of tab.now) k at o cells.old cells.new }
{
    match o {
        Outcome::Value(v) => {
            store(tab, k, at, kept(v), cells);
            Ending::Values
        }
        _ => end_of(o),
    }
}

// Stores the cells of n names, which stand from `at` on.
pub(crate) fn assign(tab: &[u8], k: usize, at: usize, n: usize, from: &[u8], cells: &mut [u8])
    requires { Assignable (tab_of tab.now) (rows_of tab.now) k at n from.now cells.old }
    ensures { Assigns (tab_of tab.now) (rows_of tab.now) k at n from.now cells.old cells.new }
{
    let mut q = 0;
    for i in 0..n {
        q += store_name(tab, k, at + 2 * i, &from[9 * q..], cells);
    }
}

// How many cells n names have that stand from `at` on, variables of node k.
pub fn named_cells(tab: &[u8], k: usize, at: usize, n: usize) -> usize
    requires { (slots_from + at + 2 * n ≤ length (tab_of tab.now)) × (k < 32) × (n ≤ 255) × ((i : ℕ) → i < n → slot_at (tab_of tab.now) (at + 2 * i) < 112) }
    ensures { result ≡ cells_under_all (tab_of tab.now) k at n }
{
    let mut q = 0;
    for i in 0..n {
        q += cells_for(length_of(tab, k, defined_at(tab, at + 2 * i)));
    }
    q
}

// So many cells are fitted, where they stand, to the type with this code.
pub fn fit_cells(code: u8, count: usize, cells: &mut [u8])
    requires { 9 * count ≤ length cells.old }
    ensures { Fitted code count cells.old cells.new }
{
    for i in 0..count {
        let v = read_cell(cells, 9 * i);
        let w = kept(fit_to(code, kept(v)));
        write_cell(w, cells, 9 * i);
    }
}

// The cells of an array of m as they are passed on: fitted to variable i of the node that is called, or as they are.
pub fn fit_part(tab: &[u8], callee: Option<usize>, i: usize, m: usize, cells: &mut [u8])
    requires { (slots_from ≤ length (tab_of tab.now)) × MatchOption callee (Unit {0}) (λ k. k < 32) × (i < 112) × (9 * m ≤ length cells.old) }
    ensures { FitsPart (tab_of tab.now) callee i m cells.old cells.new }
{
    if let Some(k) = callee {
        fit_cells(code_of(tab, k, i), m, cells);
    }
}

// The value of a scalar part, if it has one, is put in the first cell of `to` as it is passed on; answers how it ended. It is put into its callers: measured faster.
#[inline(always)]
pub fn put_part(tab: &[u8], callee: Option<usize>, i: usize, o: Outcome, to: &mut [u8]) -> Ending
    requires { (slots_from ≤ length (tab_of tab.now)) × MatchOption callee (Unit {0}) (λ k. k < 32) × (i < 112) × (9 ≤ length to.old) }
    ensures { (result ≡ ending_of (several o)) × Puts (tab_of tab.now) callee i o to.old to.new }
{
    match o {
        Outcome::Value(v) => {
            write_cell(passed(tab, callee, i, v), to, 0);
            Ending::Values
        }
        _ => end_of(o),
    }
}

// The value of a call that ended so and has so many outputs, which are in `cells`.
pub fn single_out(end: Ending, outputs: usize, cells: &[u8]) -> Outcome
    requires { 9 ≤ length cells.now }
    ensures { (os : Outcomes) → Leaves os end outputs cells.now → result ≡ single os }
{
    match end {
        Ending::Values if outputs == 1 => Outcome::Value(read_cell(cells, 0)),
        Ending::Values => Outcome::Failure(Cause::Other),
        Ending::Failed(c) => Outcome::Failure(c),
        Ending::Overflowed => Outcome::Overflow,
    }
}
