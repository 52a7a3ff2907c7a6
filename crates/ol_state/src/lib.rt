// An inner part of the runtime, the state: fresh records, and an old state and inputs, judged: 15 and 16.
#![tactic(auto)]

ghost use Rattle.std.specs.Prelude.{◌≡◌, List, length};
ghost use Rattle.ol_spec.specs.declared.Value.{Value};
ghost use Rattle.ol_spec.specs.Cell.{cells};
ghost use Rattle.ol_spec.specs.State.{globals_of, good_at, good_state, good_inputs};
ghost use Rattle.ol_tables.specs.At.{file_at};
ghost use Rattle.ol_tables.specs.Tables.{Variants};
ghost use Rattle.ol_tables.specs.Table.{tab_of, rows_of, known_of, consts_of};
ghost use Rattle.ol_state.specs.Known.{Known, Sited};
ghost use Rattle.ol_state.specs.Ready.{Ready};

pub mod fresh; // fresh.rt: fresh records
pub mod defaults; // defaults.rt: the started byte and the default cells of a fresh record
mod types; // types.rt: the declared types of variables
mod sites; // sites.rt: the call sites of a node, in file order
mod cells; // cells.rt: cells
mod inputs; // inputs.rt: inputs
mod own; // own.rt: a record's started byte and cells

use crate::fresh::main_node;
use crate::sites::call_sites;
use crate::types::type_at;
use inputs::judge_inputs;
use ol_tables::kind::NodeKind;
use ol_tables::table::{cells_of, column, consts_from, known, types_of};
use ol_tables::tables::{INPUTS, KIND, SIZE};
use own::good_own;

// Whether the record of a call site of node k, which is all of `r`, is good: its own bytes, then the
// records of its own call sites, to the last byte. Only an Operator's call site has one.
fn good_record(file: &[u8], tab: &[u8], variants: &[u8], k: usize, r: &[u8]) -> bool
    requires { Sited (file_at file.now) file.now (tab_of tab.now) (rows_of tab.now) k r.now × Variants (file_at file.now) variants.now }
    ensures { (vs : List Value) → result ≡ good_at (globals_of (file_at file.now) vs) (length (file_at file.now).nodes) k r.now }
{
    if !NodeKind::Operator.is(column(tab, k, KIND)) {
        return true;
    }
    if !good_own(tab, variants, k, r) {
        return false;
    }
    let mut used = 1 + 9 * cells_of(tab, k, 3);
    let mut sites = call_sites(file, tab, k);
    // The bytes end the walk, and not the call sites: where none are left, no call site is looked for (docs/PERFORMANCE.md).
    while used < r.len() {
        let Some(c) = sites.next() else {
            return true;
        };
        let end = used + column(tab, c, SIZE);
        if !good_record(file, tab, variants, c, &r[used..end]) {
            return false;
        }
        used = end;
    }
    true
}

// 15: whether an old state is well formed: its length, the constants' cells, then the main record.
pub fn good_state(file: &[u8], tab: &[u8], variants: &[u8], state: &[u8]) -> bool
    requires { Ready (file_at file.now) file.now (tab_of tab.now) (rows_of tab.now) variants.now (known_of tab.now) (consts_of tab.now) }
    ensures { (vs : List Value) → consts_of tab.now ≡ cells vs → result ≡ good_state (file_at file.now) vs state.now }
{
    let k = main_node(file, tab);
    let head = 9 * known(tab);
    let from = consts_from(tab);
    if state.len() != head + column(tab, k, SIZE) {
        return false;
    }
    state[..head] == tab[from..from + head] && good_record(file, tab, variants, k, &state[head..])
}

// 16: whether inputs are a cell for each input of the main node, good, and of its type's kind, range
// and enum.
pub fn good_inputs(file: &[u8], tab: &[u8], inputs: &[u8]) -> bool
    requires { Known (file_at file.now) file.now (tab_of tab.now) (rows_of tab.now) }
    ensures { result ≡ good_inputs (file_at file.now) inputs.now }
{
    let k = main_node(file, tab);
    let n = column(tab, k, INPUTS);
    if inputs.len() != 9 * cells_of(tab, k, 1) {
        return false;
    }
    let types = types_of(tab, k);
    let mut cell: usize = 0;
    for i in 0..n {
        let t = type_at(tab, types + 2 * i);
        if !judge_inputs(file, t.code, t.number, t.cells, &inputs[9 * cell..]) {
            return false;
        }
        cell += t.cells;
    }
    true
}
