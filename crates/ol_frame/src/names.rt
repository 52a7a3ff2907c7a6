// What a name, a literal and a Pre yield, and whether an expression counts as real.
// file and tab stay two parameters, as in ol_eval. What is asked of them (`Cells`, `Plan`) speaks of the file beside the frame, so no ghost field of a frame can hold it.
ghost use Rattle.std.specs.Prelude.{◌≡◌, false, List, ℕ, ◌+◌, ◌≤◌, ◌<◌, length, get_or};
ghost use Rattle.ol_spec.specs.Eval.{or_failure, present_of, pre_of, is_double?, join, first_type};
ghost use Rattle.ol_spec.specs.declared.Value.TheVariants as Val;
ghost use Rattle.ol_tables.specs.At.{expr_at, end_at, node_in};
ghost use Rattle.ol_tables.specs.Table.{tab_of, rows_of, consts_of};
ghost use Rattle.ol_frame.specs.Outcomes.{kind_of, common_out};
ghost use Rattle.ol_frame.specs.Walk.{nodes_in};
ghost use Rattle.ol_frame.specs.Plans.{Program, globals_in, scope_in, kind_at, Nameable, Looked, Plan, Cells, name_at, Leaf, eval_in, segs_at};

use crate::frame::Frame;
use crate::outcomes::{RealKind, common_out, is_single, kind_of_outcome, kind_of_type, same_out};
use crate::skip::pass;
use crate::tables::{Slot, code_of, length_of, named_length, row, slot_at};
use ol_spec::{Cause, Outcome, Value};
use ol_tables::form::Form;
use ol_tables::table::consts_from;
use ol_tables::tables::INPUTS;
use ol_value::cell::read_cell;

// The name at `at`, as a variant.
fn variant(file: &[u8], at: usize) -> Value
    requires { at + 2 ≤ length file.now }
    ensures { result ≡ Val.Enum (name_at file.now at) }
{
    Value::Enum(u16::from_be_bytes([file[at], file[at + 1]]))
}

// The name at `at`: a variable's present cell, a constant's value or a variant. It is put into its callers: measured faster.
#[inline(always)]
pub fn present(file: &[u8], tab: &[u8], frame: &Frame, at: usize) -> Outcome
    requires { Nameable file.now (tab_of tab.now) (consts_of tab.now) frame.now.node at × Cells file.now frame.now.node frame.now.cells.now }
    ensures { result ≡ or_failure (present_of (globals_in file.now (consts_of tab.now)) (scope_in file.now frame.now.node false frame.now.cells.now frame.now.cells.now) (name_at file.now at)) }
{
    match slot_at(tab, at) {
        Slot::Variable(s) => Outcome::Value(read_cell(frame.cells, 9 * s)),
        Slot::Constant(i) => Outcome::Value(read_cell(tab, consts_from(tab) + 9 * i)),
        Slot::Other => Outcome::Value(variant(file, at)),
    }
}

// Pre of the expression at `at`: cold at a first cycle, whatever the expression; later it fails on anything but a variable or constant.
fn previous(file: &[u8], tab: &[u8], frame: &Frame, at: usize, level: usize) -> Outcome
    requires { Looked file.now (tab_of tab.now) (consts_of tab.now) frame.now.node level at × Cells file.now frame.now.node frame.now.before.now }
    ensures { result ≡ pre_of (globals_in file.now (consts_of tab.now)) (scope_in file.now frame.now.node frame.now.first frame.now.before.now frame.now.before.now) frame.now.first (expr_at file.now level at) }
{
    if frame.first {
        return Outcome::Failure(Cause::Cold);
    }
    if !Form::Var.is_at(file, at) {
        return Outcome::Failure(Cause::Other);
    }
    match slot_at(tab, at + 1) {
        Slot::Variable(s) => Outcome::Value(read_cell(frame.before, 9 * s)),
        Slot::Constant(i) => Outcome::Value(read_cell(tab, consts_from(tab) + 9 * i)),
        Slot::Other => Outcome::Failure(Cause::Other),
    }
}

// What the form at `at` yields, where no part of it is evaluated: a literal, a Var, a Pre; a Tuple fails.
pub fn leaf_out(file: &[u8], tab: &[u8], at: usize, level: usize, frame: &Frame) -> Outcome
    requires { Plan file.now (tab_of tab.now) (rows_of tab.now) (consts_of tab.now) frame.now.node level 1 at × Cells file.now frame.now.node frame.now.cells.now × Cells file.now frame.now.node frame.now.before.now × Leaf (get_or file.now at 0) }
    ensures { (seg : List ℕ) → result ≡ (eval_in file.now (consts_of tab.now) frame.now.node frame.now.first frame.now.cells.now frame.now.before.now (expr_at file.now level at) seg).out }
{
    let p = at + 1;
    match Form::at(file, at) {
        Form::Bool => Outcome::Value(Value::Bool(file[p] == 1)),
        Form::Int | Form::Float => Outcome::Value(read_cell(file, at)),
        Form::Char => Outcome::Value(Value::Int(i64::from(file[p]))),
        Form::Var => present(file, tab, frame, p),
        Form::Pre => previous(file, tab, frame, p, level - 1),
        _ => Outcome::Failure(Cause::Other),
    }
}

// The real kind of a call of node k: by its first output's type.
fn call_kind(file: &[u8], tab: &[u8], k: usize) -> RealKind
    requires { Program file.now (tab_of tab.now) (rows_of tab.now) × (k < nodes_in file.now) }
    ensures { kind_of result ≡ first_type (node_in file.now k).outputs }
{
    let i = row(tab, k, INPUTS);
    if length_of(tab, k, i) == 0 {
        kind_of_type(code_of(tab, k, i))
    } else {
        RealKind::NotReal
    }
}

// How the expression at `at` counts as real.
#[cycle(real_kinds)]
fn real_kind(file: &[u8], tab: &[u8], frame: &Frame, at: usize, level: usize) -> RealKind
    requires { Plan file.now (tab_of tab.now) (rows_of tab.now) (consts_of tab.now) frame.now.node level 1 at × Cells file.now frame.now.node frame.now.cells.now × (segs_at file.now level 1 at ≤ 32768) }
    ensures { kind_of result ≡ kind_at file.now tab.now frame.now level at }
{
    let p = at + 1;
    match Form::at(file, at) {
        Form::Float => RealKind::Double,
        Form::Var => {
            if named_length(tab, at) == 0 {
                kind_of_outcome(present(file, tab, frame, p))
            } else {
                RealKind::NotReal
            }
        }
        Form::Unary => real_kind(file, tab, frame, at + 2, level - 1),
        Form::Binary => match file[p] {
            // Add to Div: the enum of the operators is ol_value's own, and nothing else is asked of one here.
            10..14 => real_kinds(file, tab, frame, at + 2, level - 1),
            _ => RealKind::NotReal,
        },
        Form::If => {
            let c = pass(file, tab, p, level - 1);
            real_kinds(file, tab, frame, c.next, level - 1)
        }
        Form::Pre => real_kind(file, tab, frame, p, level - 1),
        Form::Arrow => real_kinds(file, tab, frame, p, level - 1),
        Form::Cast => kind_of_type(file[p]),
        Form::Call => call_kind(file, tab, usize::from(file[p])),
        _ => RealKind::NotReal,
    }
}

// Of two expressions, the first of which is at `at`: one double makes both double.
#[cycle(real_kinds)]
fn real_kinds(file: &[u8], tab: &[u8], frame: &Frame, at: usize, level: usize) -> RealKind
    requires { Plan file.now (tab_of tab.now) (rows_of tab.now) (consts_of tab.now) frame.now.node level 2 at × Cells file.now frame.now.node frame.now.cells.now × (segs_at file.now level 2 at ≤ 32768) }
    ensures { kind_of result ≡ join (kind_at file.now tab.now frame.now level at) (kind_at file.now tab.now frame.now level (end_at file.now level at)) }
{
    let a = real_kind(file, tab, frame, at, level);
    let p = pass(file, tab, at, level);
    let b = real_kind(file, tab, frame, p.next, level);
    a.max(b)
}

// The outcome of a taken branch, where the other is at `at`: a single widens if that one counts as double.
pub fn chosen(
    file: &[u8],
    tab: &[u8],
    frame: &Frame,
    at: usize,
    level: usize,
    taken: Outcome,
) -> Outcome
    requires { Plan file.now (tab_of tab.now) (rows_of tab.now) (consts_of tab.now) frame.now.node level 1 at × Cells file.now frame.now.node frame.now.cells.now × (segs_at file.now level 1 at ≤ 32768) }
    ensures { result ≡ common_out (is_double? (kind_at file.now tab.now frame.now level at)) taken }
{
    if is_single(taken) {
        common_out(real_kind(file, tab, frame, at, level), taken)
    } else {
        same_out(taken)
    }
}
