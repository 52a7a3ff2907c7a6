// The constants' values: each at a first cycle with no variables, fitted to its type.
ghost use Rattle.std.specs.Prelude.{◌≡◌, ℕ, true, ◌+◌, ◌*◌, ◌<◌, ◌≤◌, length};
ghost use Rattle.ol_spec.specs.Admission.{constants, constant_cell_names};
ghost use Rattle.ol_tables.specs.At.{file_at};
ghost use Rattle.ol_tables.specs.Heads.{ty_length_at};
ghost use Rattle.ol_tables.specs.Table.{tab_of, rows_of, known_of, consts_of};
ghost use Rattle.ol_frame.specs.Walk.{nodes_in};
ghost use Rattle.ol_run.specs.Constants.{code_at, Turn, Due, ConstantTo, KeepsCells, Storing, Stores, ConstantsReady, ConstantsAre, SameTables};

use ol_eval::eval::{Step, eval_part};
use ol_frame::frame::Frame;
use ol_frame::outcomes::{Ending, kept};
use ol_frame::tables::cells_for;
use ol_spec::type_codes::ARRAY;
use ol_tables::bytes::put_two;
use ol_tables::heads::ty_size;
use ol_tables::table::{KNOWN, consts_from};
use ol_value::cell::{read_cell, write_cell};
use ol_value::types::fit_to;

// The length of the array that the type at `at` is, 0 of a scalar's, and the code of its elements or its own.
fn type_at(file: &[u8], at: usize) -> (usize, u8)
    requires { at + 3 ≤ length file.now }
    ensures { (result.0 ≡ ty_length_at file.now at) × (result.1 ≡ code_at file.now at) }
{
    if file[at] == ARRAY {
        (usize::from(file[at + 1]), file[at + 2])
    } else {
        (0, file[at])
    }
}

// The constant at `at`, an array of n or a scalar, where those before it have their cells in the table: its cells are left at the front of `cells`. The frame is at a first cycle, behind the last node.
fn constant_value(
    file: &[u8],
    tab: &[u8],
    at: usize,
    n: usize,
    frame: &Frame,
    cells: &mut [u8],
) -> Step<Ending>
    requires framed { (frame.now.node ≡ nodes_in file.now) × (frame.now.first ≡ true) }
    requires due { Due file.now (tab_of tab.now) (rows_of tab.now) (consts_of tab.now) at n × (288 ≤ length cells.old) }
    ensures { (i : ℕ) → Turn file.now (tab_of tab.now) (rows_of tab.now) (consts_of tab.now) at n i → ConstantTo file.now (consts_of tab.now) i result cells.new }
{
    let e = at + 2 + ty_size(file, at + 2);
    eval_part(file, tab, e, 24, frame, None, 0, n, cells, &[], &mut [])
}

// So many cells are fitted to the type with this code, and each is stored as its value's nine bytes.
fn keep_cells(code: u8, count: usize, from: &[u8], to: &mut [u8])
    requires { (9 * count ≤ length from.now) × (9 * count ≤ length to.old) }
    ensures { KeepsCells code count from.now to.old to.new }
{
    for i in 0..count {
        let p = 9 * i;
        let w = kept(fit_to(code, read_cell(from, p)));
        write_cell(w, to, p);
    }
}

// So many cells, fitted to the type with this code, are stored in the table behind n others of constants, and counted: how many there are then is answered.
fn store_constant(code: u8, count: usize, from: &[u8], tab: &mut [u8], n: usize) -> usize
    requires { Storing tab.old count n from.now }
    ensures { (result ≡ n + count) × Stores code count n from.now tab.old tab.new }
{
    let at = consts_from(tab) + 9 * n;
    keep_cells(code, count, from, &mut tab[at..]);
    put_two(tab, KNOWN, n + count);
    n + count
}

// The cells of `count` constants, the first of which is at `at`, are written into the table; the file has so many nodes. Else the place of the first without a value.
pub fn constant_values(
    file: &[u8],
    tab: &mut [u8],
    nodes: usize,
    at: usize,
    count: usize,
) -> Result<(), usize>
    requires { ConstantsReady file.now tab.old nodes at count }
    ensures { ConstantsAre (length (constant_cell_names (file_at file.now))) (constants (file_at file.now)) result (consts_of tab.new) × SameTables (length file.now) tab.old tab.new × (result ≡ Ok tt → known_of tab.new ≡ length (constant_cell_names (file_at file.now))) }
{
    put_two(tab, KNOWN, 0);
    if count == 0 {
        return Ok(());
    }
    let frame = Frame {
        first: true,
        node: nodes,
        cells: &mut [],
        before: &[],
    };
    let mut cells = [0u8; 288];
    let mut pos = at;
    let mut known = 0;
    for _ in 0..count {
        let (n, code) = type_at(file, pos + 2);
        let s = constant_value(file, tab, pos, n, &frame, &mut cells);
        let Ending::Values = s.out else {
            return Err(pos);
        };
        known = store_constant(code, cells_for(n), &cells, tab, known);
        pos = s.next;
    }
    Ok(())
}
