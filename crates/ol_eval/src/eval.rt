// Evaluation: expressions, calls and equations, over the parts of the two states that hold their records.
// The functions of this file call each other, and a number falls at each of these calls: node * 1024 + level * 32 + rank.
// node is the node whose frame it is (`k` where it is called or iterated), and a callee comes before its caller; level is the number of levels that
// an expression may have, at most 24, and counts as 31 where no expression is evaluated yet.
// The ranks, at an expression's level: enter 1, eval_map and eval_fold 2, work_in 3, work_32 to work_1024 4, eval_work 5, eval_single 6, eval_call and eval_array 7,
// eval_form 8, eval 9, eval_part and eval_equal 10, eval_two, step_untaken, eval_all and eval_index 11, eval_first and eval_second 12, eval_if 13;
// at level 31: equation_in 0, equation_32 and equation_1024 1, equation 2, run 3, call_function 4, function_112, function_3584 and step_instance 5, step_in 6, step_wide 7,
// step_site 8, apply 9, map_from and fold_from 10.
// file and tab stay two parameters: lent as one struct with methods they make a cycle of feeder30 8 percent more instructions, which misses its measure of speed (docs/PERFORMANCE.md).
// frame, old and new stay too: old and new are other parts of the two states at each call, so a struct of them would be made anew.
// So what they ask together stands in the clauses, under one name each: `CanEval`, `CanStep`, `CanRun` and `CanEquate`.
ghost use Rattle.std.specs.Prelude.{◌≡◌, ℕ, true, false, ◌+◌, ◌*◌, ◌<◌, ◌≤◌, length, get_or};
ghost use Rattle.ol_spec.specs.Syntax.{Function, Operator};
ghost use Rattle.ol_tables.specs.At.{node_in, expr_at, end_at};
ghost use Rattle.ol_tables.specs.Table.{tab_of, rows_of, consts_of};
ghost use Rattle.ol_frame.specs.Walk.{nodes_in};
ghost use Rattle.ol_frame.specs.Plans.{Plan, Planned, span_in};
ghost use Rattle.ol_frame.specs.Nodes.{EquationPlan};
ghost use Rattle.ol_frame.specs.Equations.{is_map, arrays_count, arrays_start, place_in, rhs_in};
ghost use Rattle.ol_frame.specs.Frame.{Keeps};
ghost use Rattle.ol_eval.specs.Post.{CanEval, on, ScalarsAt, Alike, Equated, array_at, EvalsTo, TwoTo, EqualTo, ChooseTo, IfTo, UntakenTo, IndexTo};
ghost use Rattle.ol_eval.specs.Calls.{callee_at, Several, AllTo, Part, PartTo, ArrayTo, EntersTo, callee_cells, is_work, work_cells, work_outputs, Works, WorkTo, IteratedTo};
ghost use Rattle.ol_eval.specs.Calls.{CanIterate, Mapped, MapTo, AppliesTo, FoldTo, CanStep, Wide, SiteTo, CanRun, RunTo, CanEquate, scalar_rhs, equation_cells, EquationTo};

use ol_frame::arrays::{
    array_length, compared, element, equal_cells, gather, present_cells, previous_cells, stopped,
};
use ol_frame::copies::{copy, fit_part, named_cells, passed, put_part, single_out};
use ol_frame::equations::{arrays_of, is_map, place_at, plan_of, records_at};
use ol_frame::frame::Frame;
use ol_frame::names::{chosen, leaf_out, present};
use ol_frame::outcomes::{
    Ending, binary_out, cast_out, done, drop_failure, end_of, kept, named_out, overflowed, runs,
    same_out, test_of, unary_out, untested,
};
use ol_frame::skip::{pass, pass_all};
use ol_frame::tables::{cells_for, cells_of, order_at, row};
use ol_spec::Outcome;
use ol_state::fresh::write_fresh;
use ol_tables::form::Form;
use ol_tables::heads::{head, ty_size};
use ol_tables::kind::NodeKind;
use ol_tables::tables::{COUNT, KIND, OUTPUTS, SIZE};
use ol_value::cell::{read_cell, write_cell};

// ---- expressions

// What evaluating gives: an expression's outcome, or how several or a call ended; where they end; and the bytes of their records.
#[derive(Clone, Copy)]
pub struct Step<T> {
    pub out: T,
    pub next: usize,
    pub used: usize,
}

// The expression at `at`. A Var is read at once. It is put into its callers: measured faster.
#[inline(always)]
#[cycle(evaluation)]
pub fn eval(
    file: &[u8],
    tab: &[u8],
    at: usize,
    level: usize,
    frame: &Frame,
    old: &[u8],
    new: &mut [u8],
) -> Step<Outcome>
    requires { CanEval file.now tab.now level 1 at frame.now old.now new.old × ScalarsAt file.now frame.now.node level 1 at }
    ensures { on (EvalsTo file.now (consts_of tab.now) level at) frame.now old.now result new.new }
{
    if Form::Var.is_at(file, at) {
        Step {
            out: named_out(present(file, tab, frame, at + 1)),
            next: at + 3,
            used: 0,
        }
    } else {
        eval_form(file, tab, at, level, frame, old, new)
    }
}

// The expression at `at`, by its form.
#[cycle(evaluation)]
fn eval_form(
    file: &[u8],
    tab: &[u8],
    at: usize,
    level: usize,
    frame: &Frame,
    old: &[u8],
    new: &mut [u8],
) -> Step<Outcome>
    requires { CanEval file.now tab.now level 1 at frame.now old.now new.old × ScalarsAt file.now frame.now.node level 1 at }
    ensures { on (EvalsTo file.now (consts_of tab.now) level at) frame.now old.now result new.new }
{
    let p = at + 1;
    match Form::at(file, at) {
        Form::Unary => {
            let op = file[p];
            let r = eval_form(file, tab, at + 2, level - 1, frame, old, new);
            Step {
                out: unary_out(op, r.out),
                ..r
            }
        }
        Form::Binary => eval_two(file, tab, at, level - 1, frame, old, new),
        Form::If => eval_if(file, tab, p, level - 1, frame, old, new),
        Form::Arrow => {
            if frame.first {
                eval_first(file, tab, p, level - 1, frame, old, new)
            } else {
                eval_second(file, tab, p, level - 1, frame, old, new)
            }
        }
        Form::Cast => {
            let t = file[p];
            let q = p + ty_size(file, p);
            let r = eval_form(file, tab, q, level - 1, frame, old, new);
            Step {
                out: cast_out(t, r.out),
                ..r
            }
        }
        Form::Call => eval_call(file, tab, at, level, frame, old, new),
        Form::Iterator => eval_single(file, tab, at, level, 1, frame, old, new),
        Form::Index => eval_index(file, tab, at + 1, level - 1, frame, old, new),
        _ => {
            let s = pass(file, tab, at, level);
            Step {
                out: same_out(leaf_out(file, tab, at, level, frame)),
                next: s.next,
                used: s.used,
            }
        }
    }
}

// The two operands of the Binary at `at`, of at most `level` levels, and what its operator makes of them. Both are evaluated, also of And.
#[cycle(evaluation)]
fn eval_two(
    file: &[u8],
    tab: &[u8],
    at: usize,
    level: usize,
    frame: &Frame,
    old: &[u8],
    new: &mut [u8],
) -> Step<Outcome>
    requires { CanEval file.now tab.now level 2 (at + 2) frame.now old.now new.old × Alike file.now frame.now.node level (at + 2) × Equated file.now frame.now.node level at }
    ensures { on (TwoTo file.now (consts_of tab.now) (get_or file.now (at + 1) 0) level (at + 2)) frame.now old.now result new.new }
{
    let op = file[at + 1];
    let n = compared_length(file, tab, at, level);
    if n != 0 {
        return eval_equal(file, tab, at, level, n, frame, old, new);
    }
    let l = eval(file, tab, at + 2, level, frame, old, new);
    let n = l.used;
    if done(l.out) {
        let r = eval(file, tab, l.next, level, frame, &old[n..], &mut new[n..]);
        Step {
            out: binary_out(op, l.out, r.out),
            next: r.next,
            used: n + r.used,
        }
    } else {
        let s = pass(file, tab, l.next, level);
        Step {
            out: same_out(l.out),
            next: s.next,
            used: n + s.used,
        }
    }
}

// The length of the first side of the Binary at `at`, if it compares arrays, else 0: only Eq and Neq, codes 4 and 5, compare any. The sides have at most `level` levels.
fn compared_length(file: &[u8], tab: &[u8], at: usize, level: usize) -> usize
    requires { Planned file.now (tab_of tab.now) (rows_of tab.now) (consts_of tab.now) level (at + 2) }
    ensures { (node : ℕ) → Plan file.now (tab_of tab.now) (rows_of tab.now) (consts_of tab.now) node level 1 (at + 2) → Equated file.now node level at → result ≡ span_in file.now node (expr_at file.now level (at + 2)) }
{
    let op = file[at + 1];
    let compares = op == 4 || op == 5;
    if compares {
        array_length(file, tab, at + 2, level)
    } else {
        0
    }
}

// IfThenElse, whose condition is at `at`.
#[cycle(evaluation)]
fn eval_if(
    file: &[u8],
    tab: &[u8],
    at: usize,
    level: usize,
    frame: &Frame,
    old: &[u8],
    new: &mut [u8],
) -> Step<Outcome>
    requires { CanEval file.now tab.now level 3 at frame.now old.now new.old × ScalarsAt file.now frame.now.node level 3 at }
    ensures { on (IfTo file.now (consts_of tab.now) level at) frame.now old.now result new.new }
{
    let c = eval(file, tab, at, level, frame, old, new);
    let n = c.used;
    match test_of(c.out) {
        Some(true) => {
            let r = eval_first(file, tab, c.next, level, frame, &old[n..], &mut new[n..]);
            Step {
                out: same_out(r.out),
                next: r.next,
                used: n + r.used,
            }
        }
        Some(false) => {
            let r = eval_second(file, tab, c.next, level, frame, &old[n..], &mut new[n..]);
            Step {
                out: same_out(r.out),
                next: r.next,
                used: n + r.used,
            }
        }
        None => {
            let s = pass_all(file, tab, c.next, level, 2);
            Step {
                out: untested(c.out),
                next: s.next,
                used: n + s.used,
            }
        }
    }
}

// Two branches, of which the first, at `at`, is taken. It is put into its callers: measured faster.
#[cycle(evaluation)]
#[inline(always)]
fn eval_first(
    file: &[u8],
    tab: &[u8],
    at: usize,
    level: usize,
    frame: &Frame,
    old: &[u8],
    new: &mut [u8],
) -> Step<Outcome>
    requires { CanEval file.now tab.now level 2 at frame.now old.now new.old × ScalarsAt file.now frame.now.node level 2 at }
    ensures { on (ChooseTo file.now (consts_of tab.now) true level at) frame.now old.now result new.new }
{
    let t = eval(file, tab, at, level, frame, old, new);
    let n = t.used;
    let to = chosen(file, tab, frame, t.next, level, t.out);
    let s = pass(file, tab, t.next, level);
    if runs(to, s.has) {
        let other = step_untaken(file, tab, t.next, level, frame, &old[n..], &mut new[n..]);
        Step {
            out: drop_failure(to, other),
            next: s.next,
            used: n + s.used,
        }
    } else {
        Step {
            out: to,
            next: s.next,
            used: n + s.used,
        }
    }
}

// Two branches, the first at `at`, of which the second is taken. It is put into its callers: measured faster.
#[cycle(evaluation)]
#[inline(always)]
fn eval_second(
    file: &[u8],
    tab: &[u8],
    at: usize,
    level: usize,
    frame: &Frame,
    old: &[u8],
    new: &mut [u8],
) -> Step<Outcome>
    requires { CanEval file.now tab.now level 2 at frame.now old.now new.old × ScalarsAt file.now frame.now.node level 2 at }
    ensures { on (ChooseTo file.now (consts_of tab.now) false level at) frame.now old.now result new.new }
{
    let s = pass(file, tab, at, level);
    let n = s.used;
    let e = eval(file, tab, s.next, level, frame, &old[n..], &mut new[n..]);
    let eo = chosen(file, tab, frame, at, level, e.out);
    if runs(eo, s.has) {
        let other = step_untaken(file, tab, at, level, frame, &old[..n], &mut new[..n]);
        Step {
            out: drop_failure(eo, other),
            next: e.next,
            used: n + e.used,
        }
    } else {
        Step {
            out: eo,
            next: e.next,
            used: n + e.used,
        }
    }
}

// The branch at `at`, which is not taken, is evaluated for its records only: whether it overflowed. Its value or failure is dropped.
#[cycle(evaluation)]
fn step_untaken(
    file: &[u8],
    tab: &[u8],
    at: usize,
    level: usize,
    frame: &Frame,
    old: &[u8],
    new: &mut [u8],
) -> bool
    requires { CanEval file.now tab.now level 1 at frame.now old.now new.old × ScalarsAt file.now frame.now.node level 1 at }
    ensures { on (UntakenTo file.now (consts_of tab.now) level at) frame.now old.now result new.new }
{
    overflowed(eval(file, tab, at, level, frame, old, new).out)
}

// ---- arrays

// Eq or Neq at `at`, whose sides, of at most `level` levels, are arrays, the first of n: the cells of both are evaluated, and then compared.
#[cycle(evaluation)]
fn eval_equal(
    file: &[u8],
    tab: &[u8],
    at: usize,
    level: usize,
    n: usize,
    frame: &Frame,
    old: &[u8],
    new: &mut [u8],
) -> Step<Outcome>
    requires { CanEval file.now tab.now level 2 (at + 2) frame.now old.now new.old × (n ≡ span_in file.now frame.now.node (expr_at file.now level (at + 2))) × (0 < n) × (array_at file.now frame.now.node level (end_at file.now level (at + 2)) ≡ true) }
    ensures { on (EqualTo file.now (consts_of tab.now) (get_or file.now (at + 1) 0) level (at + 2)) frame.now old.now result new.new }
{
    let op = file[at + 1];
    let mut left = [0u8; 288];
    let l = eval_array(file, tab, at + 2, level, frame, &mut left, old, new);
    let u = l.used;
    let Ending::Values = l.out else {
        let s = pass(file, tab, l.next, level);
        return Step {
            out: stopped(l.out),
            next: s.next,
            used: u + s.used,
        };
    };
    let mut right = [0u8; 288];
    let m = array_length(file, tab, l.next, level);
    let r = eval_array(
        file,
        tab,
        l.next,
        level,
        frame,
        &mut right,
        &old[u..],
        &mut new[u..],
    );
    Step {
        out: compared(op, r.out, equal_cells(n, m, &left, &right)),
        next: r.next,
        used: u + r.used,
    }
}

// An index, whose base is at `at`: the base, then the index. A base that is no array fails once both have succeeded.
#[cycle(evaluation)]
fn eval_index(
    file: &[u8],
    tab: &[u8],
    at: usize,
    level: usize,
    frame: &Frame,
    old: &[u8],
    new: &mut [u8],
) -> Step<Outcome>
    requires { CanEval file.now tab.now level 2 at frame.now old.now new.old × ScalarsAt file.now frame.now.node level 1 (end_at file.now level at) }
    ensures { on (IndexTo file.now (consts_of tab.now) level at) frame.now old.now result new.new }
{
    let mut cells = [0u8; 288];
    let n = array_length(file, tab, at, level);
    let b = eval_part(
        file, tab, at, level, frame, None, 0, n, &mut cells, old, new,
    );
    let u = b.used;
    let Ending::Values = b.out else {
        let s = pass(file, tab, b.next, level);
        return Step {
            out: stopped(b.out),
            next: s.next,
            used: u + s.used,
        };
    };
    let r = eval(file, tab, b.next, level, frame, &old[u..], &mut new[u..]);
    Step {
        out: element(n, r.out, &cells),
        next: r.next,
        used: u + r.used,
    }
}

// The array at `at`: a name, Pre of a name, a literal, a call or a map. Its cells are left at the front of `to`.
#[cycle(evaluation)]
pub fn eval_array(
    file: &[u8],
    tab: &[u8],
    at: usize,
    level: usize,
    frame: &Frame,
    to: &mut [u8],
    old: &[u8],
    new: &mut [u8],
) -> Step<Ending>
    requires { CanEval file.now tab.now level 1 at frame.now old.now new.old × (0 < span_in file.now frame.now.node (expr_at file.now level at)) × (9 * span_in file.now frame.now.node (expr_at file.now level at) ≤ length to.old) }
    ensures { on (ArrayTo file.now (consts_of tab.now) level at) frame.now old.now result to.new new.new }
{
    match Form::at(file, at) {
        Form::Var => {
            present_cells(tab, frame, at, to);
            Step {
                out: Ending::Values,
                next: at + 3,
                used: 0,
            }
        }
        Form::Pre => Step {
            out: previous_cells(tab, frame, at + 1, to),
            next: at + 4,
            used: 0,
        },
        Form::Literal => eval_all(file, tab, at, level - 1, frame, to, old, new),
        _ => eval_work(file, tab, at, level, frame, to, old, new),
    }
}

// The call at `at`, as one value.
#[cycle(evaluation)]
fn eval_call(
    file: &[u8],
    tab: &[u8],
    at: usize,
    level: usize,
    frame: &Frame,
    old: &[u8],
    new: &mut [u8],
) -> Step<Outcome>
    requires { CanEval file.now tab.now level 1 at frame.now old.now new.old × ScalarsAt file.now frame.now.node level 1 at × (get_or file.now at 0 ≡ 11) }
    ensures { on (EvalsTo file.now (consts_of tab.now) level at) frame.now old.now result new.new }
{
    let k = usize::from(file[at + 1]);
    let outputs = row(tab, k, OUTPUTS);
    if work_cells(file, tab, at, level) <= 32 {
        let mut args = [0u8; 288];
        let r = enter(file, tab, at, level, frame, &mut args, old, new);
        Step {
            out: single_out(r.out, outputs, &args),
            next: r.next,
            used: r.used,
        }
    } else {
        eval_single(file, tab, at, level, outputs, frame, old, new)
    }
}

// The call or fold at `at`, which has so many outputs, as one value.
#[cycle(evaluation)]
fn eval_single(
    file: &[u8],
    tab: &[u8],
    at: usize,
    level: usize,
    outputs: usize,
    frame: &Frame,
    old: &[u8],
    new: &mut [u8],
) -> Step<Outcome>
    requires { CanEval file.now tab.now level 1 at frame.now old.now new.old × ScalarsAt file.now frame.now.node level 1 at × (is_work file.now at ≡ true) × (outputs ≡ work_outputs file.now at) }
    ensures { on (EvalsTo file.now (consts_of tab.now) level at) frame.now old.now result new.new }
{
    let mut out = [0u8; 9];
    let r = eval_work(file, tab, at, level, frame, &mut out, old, new);
    Step {
        out: single_out(r.out, outputs, &out),
        next: r.next,
        used: r.used,
    }
}

// How many cells the work on the call or iterator at `at` takes: a call's arguments and outputs, or an iterator's arrays.
fn work_cells(file: &[u8], tab: &[u8], at: usize, level: usize) -> usize
    requires { Planned file.now (tab_of tab.now) (rows_of tab.now) (consts_of tab.now) level at × (is_work file.now at ≡ true) }
    ensures { (node : ℕ) → Plan file.now (tab_of tab.now) (rows_of tab.now) (consts_of tab.now) node level 1 at → result ≡ work_cells file.now node level at }
{
    if Form::Call.is_at(file, at) {
        let k = usize::from(file[at + 1]);
        let inputs = cells_of(tab, k, 1);
        inputs.max(cells_of(tab, k, 2) - inputs)
    } else {
        let h = arrays_of(file, at);
        h.count * array_length(file, tab, h.start, level - 1)
    }
}

// The call or iterator at `at`: its cells are left at the front of `to`. The work is done in an array for as many cells as it takes, or a few more: calls stand in calls, and each keeps its own.
#[cycle(evaluation)]
fn eval_work(
    file: &[u8],
    tab: &[u8],
    at: usize,
    level: usize,
    frame: &Frame,
    to: &mut [u8],
    old: &[u8],
    new: &mut [u8],
) -> Step<Ending>
    requires { CanEval file.now tab.now level 1 at frame.now old.now new.old × Works file.now frame.now.node level at (length to.old) }
    ensures { on (WorkTo file.now (consts_of tab.now) level at) frame.now old.now result to.new new.new }
{
    let n = work_cells(file, tab, at, level);
    if n <= 32 {
        work_32(file, tab, at, level, frame, to, old, new)
    } else if n <= 256 {
        work_256(file, tab, at, level, frame, to, old, new)
    } else if n <= 512 {
        work_512(file, tab, at, level, frame, to, old, new)
    } else if n <= 768 {
        work_768(file, tab, at, level, frame, to, old, new)
    } else {
        work_1024(file, tab, at, level, frame, to, old, new)
    }
}

// In an array for 32 cells.
#[cycle(evaluation)]
#[inline(never)]
fn work_32(
    file: &[u8],
    tab: &[u8],
    at: usize,
    level: usize,
    frame: &Frame,
    to: &mut [u8],
    old: &[u8],
    new: &mut [u8],
) -> Step<Ending>
    requires { CanEval file.now tab.now level 1 at frame.now old.now new.old × Works file.now frame.now.node level at (length to.old) × (work_cells file.now frame.now.node level at ≤ 32) }
    ensures { on (WorkTo file.now (consts_of tab.now) level at) frame.now old.now result to.new new.new }
{
    let mut work = [0u8; 288];
    work_in(file, tab, at, level, frame, &mut work, to, old, new)
}

// In an array for 256 cells.
#[cycle(evaluation)]
#[inline(never)]
fn work_256(
    file: &[u8],
    tab: &[u8],
    at: usize,
    level: usize,
    frame: &Frame,
    to: &mut [u8],
    old: &[u8],
    new: &mut [u8],
) -> Step<Ending>
    requires { CanEval file.now tab.now level 1 at frame.now old.now new.old × Works file.now frame.now.node level at (length to.old) × (work_cells file.now frame.now.node level at ≤ 256) }
    ensures { on (WorkTo file.now (consts_of tab.now) level at) frame.now old.now result to.new new.new }
{
    let mut work = [0u8; 2304];
    work_in(file, tab, at, level, frame, &mut work, to, old, new)
}

// In an array for 512 cells.
#[cycle(evaluation)]
#[inline(never)]
fn work_512(
    file: &[u8],
    tab: &[u8],
    at: usize,
    level: usize,
    frame: &Frame,
    to: &mut [u8],
    old: &[u8],
    new: &mut [u8],
) -> Step<Ending>
    requires { CanEval file.now tab.now level 1 at frame.now old.now new.old × Works file.now frame.now.node level at (length to.old) × (work_cells file.now frame.now.node level at ≤ 512) }
    ensures { on (WorkTo file.now (consts_of tab.now) level at) frame.now old.now result to.new new.new }
{
    let mut work = [0u8; 4608];
    work_in(file, tab, at, level, frame, &mut work, to, old, new)
}

// In an array for 768 cells.
#[cycle(evaluation)]
#[inline(never)]
fn work_768(
    file: &[u8],
    tab: &[u8],
    at: usize,
    level: usize,
    frame: &Frame,
    to: &mut [u8],
    old: &[u8],
    new: &mut [u8],
) -> Step<Ending>
    requires { CanEval file.now tab.now level 1 at frame.now old.now new.old × Works file.now frame.now.node level at (length to.old) × (work_cells file.now frame.now.node level at ≤ 768) }
    ensures { on (WorkTo file.now (consts_of tab.now) level at) frame.now old.now result to.new new.new }
{
    let mut work = [0u8; 6912];
    work_in(file, tab, at, level, frame, &mut work, to, old, new)
}

// In an array for 1024 cells.
#[cycle(evaluation)]
#[inline(never)]
fn work_1024(
    file: &[u8],
    tab: &[u8],
    at: usize,
    level: usize,
    frame: &Frame,
    to: &mut [u8],
    old: &[u8],
    new: &mut [u8],
) -> Step<Ending>
    requires { CanEval file.now tab.now level 1 at frame.now old.now new.old × Works file.now frame.now.node level at (length to.old) × (work_cells file.now frame.now.node level at ≤ 1024) }
    ensures { on (WorkTo file.now (consts_of tab.now) level at) frame.now old.now result to.new new.new }
{
    let mut work = [0u8; 9216];
    work_in(file, tab, at, level, frame, &mut work, to, old, new)
}

// In `work`.
#[cycle(evaluation)]
fn work_in(
    file: &[u8],
    tab: &[u8],
    at: usize,
    level: usize,
    frame: &Frame,
    work: &mut [u8],
    to: &mut [u8],
    old: &[u8],
    new: &mut [u8],
) -> Step<Ending>
    requires { CanEval file.now tab.now level 1 at frame.now old.now new.old × Works file.now frame.now.node level at (length to.old) × (9 * work_cells file.now frame.now.node level at ≤ length work.old) }
    ensures { on (WorkTo file.now (consts_of tab.now) level at) frame.now old.now result to.new new.new }
{
    if Form::Call.is_at(file, at) {
        let r = enter(file, tab, at, level, frame, work, old, new);
        copy(work, to);
        r
    } else if is_map(file, at) {
        eval_map(file, tab, at, level, frame, work, to, old, new)
    } else {
        eval_fold(file, tab, at, level, frame, work, to, old, new)
    }
}

// The map at `at`: the arrays, and then each element.
#[cycle(evaluation)]
fn eval_map(
    file: &[u8],
    tab: &[u8],
    at: usize,
    level: usize,
    frame: &Frame,
    work: &mut [u8],
    to: &mut [u8],
    old: &[u8],
    new: &mut [u8],
) -> Step<Ending>
    requires { CanEval file.now tab.now level 1 at frame.now old.now new.old × Works file.now frame.now.node level at (length to.old) × (get_or file.now at 0 ≡ 15) × (is_map file.now at ≡ true) × (9 * work_cells file.now frame.now.node level at ≤ length work.old) }
    ensures { on (IteratedTo file.now (consts_of tab.now) level at) frame.now old.now result to.new new.new }
{
    let a = eval_all(file, tab, at, level - 1, frame, work, old, new);
    let Ending::Values = a.out else {
        return a;
    };
    let k = usize::from(file[at + 2]);
    let c = usize::from(file[at + 3]);
    let n = array_length(file, tab, at + 4, level - 1);
    Step {
        out: map_from(file, tab, k, n, c, work, to),
        ..a
    }
}

// The elements of a map of Function k over c arrays of n cells, which stand one behind the other: first to last, up to the first that fails or overflows.
#[cycle(evaluation)]
fn map_from(
    file: &[u8],
    tab: &[u8],
    k: usize,
    n: usize,
    c: usize,
    arrays: &[u8],
    to: &mut [u8],
) -> Ending
    requires { CanIterate file.now tab.now k × Mapped file.now k n c arrays.now to.old }
    ensures { MapTo file.now (consts_of tab.now) k n c arrays.now result to.new }
{
    for j in 0..n {
        let mut args = [0u8; 288];
        gather(tab, k, n, c, j, arrays, &mut args);
        let o = apply(file, tab, k, &mut args);
        let Outcome::Value(v) = o else {
            return end_of(o);
        };
        write_cell(kept(v), to, 9 * j);
    }
    Ending::Values
}

// A call of Function k on the arguments in `args`, without a record: its one output.
#[cycle(evaluation)]
fn apply(file: &[u8], tab: &[u8], k: usize, args: &mut [u8]) -> Outcome
    requires { CanIterate file.now tab.now k × (288 ≤ length args.old) }
    ensures { AppliesTo file.now (consts_of tab.now) k args.old result }
{
    let end = step_site(file, tab, k, args, &[], &mut []);
    single_out(end, 1, args)
}

// The fold at `at`: the arrays, then the seed, whose records stand before theirs, then each element of the first array.
#[cycle(evaluation)]
fn eval_fold(
    file: &[u8],
    tab: &[u8],
    at: usize,
    level: usize,
    frame: &Frame,
    work: &mut [u8],
    to: &mut [u8],
    old: &[u8],
    new: &mut [u8],
) -> Step<Ending>
    requires { CanEval file.now tab.now level 1 at frame.now old.now new.old × Works file.now frame.now.node level at (length to.old) × (get_or file.now at 0 ≡ 15) × (is_map file.now at ≡ false) × (9 * work_cells file.now frame.now.node level at ≤ length work.old) }
    ensures { on (IteratedTo file.now (consts_of tab.now) level at) frame.now old.now result to.new new.new }
{
    let s = pass(file, tab, at + 4, level - 1);
    let u = s.used;
    let a = eval_all(
        file,
        tab,
        at,
        level - 1,
        frame,
        work,
        &old[u..],
        &mut new[u..],
    );
    let used = u + a.used;
    let Ending::Values = a.out else {
        return Step { used, ..a };
    };
    let k = usize::from(file[at + 2]);
    let n = array_length(file, tab, s.next, level - 1);
    let seed = eval(
        file,
        tab,
        at + 4,
        level - 1,
        frame,
        &old[..u],
        &mut new[..u],
    );
    Step {
        out: put_part(tab, None, 0, fold_from(file, tab, k, n, seed.out, work), to),
        used,
        ..a
    }
}

// A fold of Function k over the n cells at the front of `array`, from the seed on.
#[cycle(evaluation)]
fn fold_from(file: &[u8], tab: &[u8], k: usize, n: usize, seed: Outcome, array: &[u8]) -> Outcome
    requires { CanIterate file.now tab.now k × (length (node_in file.now k).inputs ≡ 2) × (n ≤ 32) × (9 * n ≤ length array.now) }
    ensures { FoldTo file.now (consts_of tab.now) k n array.now seed result }
{
    let mut out = seed;
    for j in 0..n {
        let Outcome::Value(v) = out else {
            return same_out(out);
        };
        let mut args = [0u8; 288];
        write_cell(passed(tab, Some(k), 0, v), &mut args, 0);
        write_cell(
            passed(tab, Some(k), 1, read_cell(array, 9 * j)),
            &mut args,
            9,
        );
        out = apply(file, tab, k, &mut args);
    }
    same_out(out)
}

// ---- calls

// The call at `at`: its arguments, and then the callee, whose outputs are left in `args`.
#[cycle(evaluation)]
fn enter(
    file: &[u8],
    tab: &[u8],
    at: usize,
    level: usize,
    frame: &Frame,
    args: &mut [u8],
    old: &[u8],
    new: &mut [u8],
) -> Step<Ending>
    requires { CanEval file.now tab.now level 1 at frame.now old.now new.old × (get_or file.now at 0 ≡ 11) × (9 * callee_cells file.now (get_or file.now (at + 1) 0) ≤ length args.old) }
    ensures { on (EntersTo file.now (consts_of tab.now) level at) frame.now old.now result args.new new.new }
{
    let k = usize::from(file[at + 1]);
    let size = row(tab, k, SIZE);
    let a = eval_all(
        file,
        tab,
        at,
        level - 1,
        frame,
        args,
        &old[size..],
        &mut new[size..],
    );
    let used = size + a.used;
    let Ending::Values = a.out else {
        return Step { used, ..a };
    };
    let end = step_site(file, tab, k, args, &old[..size], &mut new[..size]);
    Step {
        out: end,
        used,
        ..a
    }
}

// The node that is called, if it is a call that stands at `at`.
fn callee_at(file: &[u8], at: usize) -> Option<usize>
    requires { at + 1 < length file.now }
    ensures { result ≡ callee_at file.now at }
{
    if Form::Call.is_at(file, at) {
        Some(usize::from(file[at + 1]))
    } else {
        None
    }
}

// The parts of the call, Tuple, literal or map at `at`, or the arrays of the fold there, left to right up to the first failure or overflow. Their cells go to `to`, one part behind the
// other, a call's fitted to the callee's inputs.
#[cycle(evaluation)]
fn eval_all(
    file: &[u8],
    tab: &[u8],
    at: usize,
    level: usize,
    frame: &Frame,
    to: &mut [u8],
    old: &[u8],
    new: &mut [u8],
) -> Step<Ending>
    requires { CanEval file.now tab.now level (arrays_count file.now at) (arrays_start file.now at) frame.now old.now new.old × Several file.now frame.now.node level at (length to.old) }
    ensures { on (AllTo file.now (consts_of tab.now) level at) frame.now old.now result to.new new.new }
{
    let callee = callee_at(file, at);
    let h = arrays_of(file, at);
    let n = h.count;
    let mut pos = h.start;
    let mut used = 0;
    let mut q = 0;
    for i in 0..n {
        let m = array_length(file, tab, pos, level);
        let r = eval_part(
            file,
            tab,
            pos,
            level,
            frame,
            callee,
            i,
            m,
            &mut to[9 * q..],
            &old[used..],
            &mut new[used..],
        );
        used += r.used;
        pos = r.next;
        let Ending::Values = r.out else {
            let s = pass_all(file, tab, pos, level, n - i - 1);
            return Step {
                out: r.out,
                next: s.next,
                used: used + s.used,
            };
        };
        q += cells_for(m);
    }
    Step {
        out: Ending::Values,
        next: pos,
        used,
    }
}

// Part i at `at`, an array of m or a scalar: its cells are left at the front of `to`.
#[cycle(evaluation)]
#[inline(always)]
pub fn eval_part(
    file: &[u8],
    tab: &[u8],
    at: usize,
    level: usize,
    frame: &Frame,
    callee: Option<usize>,
    i: usize,
    m: usize,
    to: &mut [u8],
    old: &[u8],
    new: &mut [u8],
) -> Step<Ending>
    requires { CanEval file.now tab.now level 1 at frame.now old.now new.old × Part file.now callee i frame.now.node level at m (length to.old) }
    ensures { on (PartTo file.now (consts_of tab.now) callee i level at) frame.now old.now result to.new new.new }
{
    if m == 0 {
        let r = eval(file, tab, at, level, frame, old, new);
        Step {
            out: put_part(tab, callee, i, r.out, to),
            next: r.next,
            used: r.used,
        }
    } else {
        let r = eval_array(file, tab, at, level, frame, to, old, new);
        fit_part(tab, callee, i, m, to);
        r
    }
}

// A call of node k on its record: its arguments are in `args`, and its outputs are left there. It is run in a frame for 112 cells or, where the node has more, for 3,584.
// It stays out of its caller: while arguments are evaluated, the callee's frame takes no stack.
#[cycle(evaluation)]
#[inline(never)]
fn step_site(
    file: &[u8],
    tab: &[u8],
    k: usize,
    args: &mut [u8],
    old: &[u8],
    new: &mut [u8],
) -> Ending
    requires { CanStep file.now tab.now k args.old old.now new.old }
    ensures { SiteTo file.now (consts_of tab.now) k args.old old.now result args.new new.new }
{
    if cells_of(tab, k, 3) <= 112 {
        let mut cells = [0u8; 1008];
        step_in(file, tab, k, args, &mut cells, old, new)
    } else {
        step_wide(file, tab, k, args, old, new)
    }
}

// In a frame for 3,584 cells.
#[cycle(evaluation)]
#[inline(never)]
fn step_wide(
    file: &[u8],
    tab: &[u8],
    k: usize,
    args: &mut [u8],
    old: &[u8],
    new: &mut [u8],
) -> Ending
    requires { CanStep file.now tab.now k args.old old.now new.old }
    ensures { SiteTo file.now (consts_of tab.now) k args.old old.now result args.new new.new }
{
    let mut cells = [0u8; 32256];
    step_in(file, tab, k, args, &mut cells, old, new)
}

// In a frame of these cells.
#[cycle(evaluation)]
#[inline(always)]
fn step_in(
    file: &[u8],
    tab: &[u8],
    k: usize,
    args: &mut [u8],
    cells: &mut [u8],
    old: &[u8],
    new: &mut [u8],
) -> Ending
    requires { CanStep file.now tab.now k args.old old.now new.old × Wide file.now k (length cells.old) }
    ensures { SiteTo file.now (consts_of tab.now) k args.old old.now result args.new new.new }
{
    if NodeKind::Operator.is(row(tab, k, KIND)) {
        step_instance(file, tab, k, args, cells, old, new)
    } else if cells_of(tab, k, 3) <= 112 {
        function_112(file, tab, k, args, cells, old, new)
    } else {
        function_3584(file, tab, k, args, cells, old, new)
    }
}

// A step of an instance of node k on its record. It is put into its callers: measured faster.
#[inline(always)]
#[cycle(evaluation)]
fn step_instance(
    file: &[u8],
    tab: &[u8],
    k: usize,
    args: &mut [u8],
    cells: &mut [u8],
    old: &[u8],
    new: &mut [u8],
) -> Ending
    requires { CanStep file.now tab.now k args.old old.now new.old × Wide file.now k (length cells.old) × ((node_in file.now k).kind ≡ Operator) }
    ensures { SiteTo file.now (consts_of tab.now) k args.old old.now result args.new new.new }
{
    let n = cells_of(tab, k, 3);
    let own = 1 + 9 * n;
    let inputs = cells_of(tab, k, 1);
    let mut frame = Frame::open(k, n, inputs, args, old, cells);
    let r = run(file, tab, &mut frame, &old[own..], &mut new[own..]);
    match r.end {
        Ending::Values => {
            frame.finish(n, new);
            frame.copy_outputs(inputs, cells_of(tab, k, 2) - inputs, args);
            Ending::Values
        }
        Ending::Failed(c) => {
            write_fresh(file, tab, k, new);
            Ending::Failed(c)
        }
        Ending::Overflowed => {
            copy(old, new);
            Ending::Overflowed
        }
    }
}

// With the cells before in an array for 112.
#[cycle(evaluation)]
#[inline(never)]
fn function_112(
    file: &[u8],
    tab: &[u8],
    k: usize,
    args: &mut [u8],
    cells: &mut [u8],
    old: &[u8],
    new: &mut [u8],
) -> Ending
    requires { CanStep file.now tab.now k args.old old.now new.old × Wide file.now k (length cells.old) × Wide file.now k 1008 × ((node_in file.now k).kind ≡ Function) }
    ensures { SiteTo file.now (consts_of tab.now) k args.old old.now result args.new new.new }
{
    let mut before = [0u8; 1008];
    call_function(file, tab, k, args, cells, &mut before, old, new)
}

// With the cells before in an array for 3584.
#[cycle(evaluation)]
#[inline(never)]
fn function_3584(
    file: &[u8],
    tab: &[u8],
    k: usize,
    args: &mut [u8],
    cells: &mut [u8],
    old: &[u8],
    new: &mut [u8],
) -> Ending
    requires { CanStep file.now tab.now k args.old old.now new.old × Wide file.now k (length cells.old) × ((node_in file.now k).kind ≡ Function) }
    ensures { SiteTo file.now (consts_of tab.now) k args.old old.now result args.new new.new }
{
    let mut before = [0u8; 32256];
    call_function(file, tab, k, args, cells, &mut before, old, new)
}

// A call of Function k: as on a fresh record, which is not kept.
#[cycle(evaluation)]
#[inline(always)]
fn call_function(
    file: &[u8],
    tab: &[u8],
    k: usize,
    args: &mut [u8],
    cells: &mut [u8],
    before: &mut [u8],
    old: &[u8],
    new: &mut [u8],
) -> Ending
    requires { CanStep file.now tab.now k args.old old.now new.old × Wide file.now k (length cells.old) × Wide file.now k (length before.old) × ((node_in file.now k).kind ≡ Function) }
    ensures { SiteTo file.now (consts_of tab.now) k args.old old.now result args.new new.new }
{
    let inputs = cells_of(tab, k, 1);
    let mut frame = Frame::fresh(tab, k, inputs, args, before, cells);
    let r = run(file, tab, &mut frame, old, new);
    frame.copy_outputs(inputs, cells_of(tab, k, 2) - inputs, args);
    r.end
}

// ---- equations

// How a run of a node's equations ended, and the equation that ended it, which counts where it did not end with values. As a Result it is no plainer: its error would hold an Ending that is never Values, and a call of the node takes only the end.
#[derive(Clone, Copy)]
pub struct Ended {
    pub end: Ending,
    pub index: usize,
}

// All equations of the frame's node in evaluation order.
#[cycle(evaluation)]
pub fn run(file: &[u8], tab: &[u8], frame: &mut Frame, old: &[u8], new: &mut [u8]) -> Ended
    requires { CanRun file.now tab.now frame.old old.now new.old }
    ensures { on (RunTo file.now (consts_of tab.now)) frame.old old.now result frame.new.cells.now new.new × Keeps frame.old frame.new }
{
    let k = frame.node;
    let n = row(tab, k, COUNT);
    let plan = plan_of(tab, k);
    let total = old.len();
    for j in 0..n {
        let i = order_at(tab, k, j);
        let at = place_at(tab, plan, i);
        let a = records_at(tab, plan, n, i, total);
        let b = records_at(tab, plan, n, i + 1, total);
        let e = equation(file, tab, at, i, frame, &old[a..b], &mut new[a..b]);
        let Ending::Values = e else {
            return Ended { end: e, index: i };
        };
    }
    Ended {
        end: Ending::Values,
        index: 0,
    }
}

// Equation i of the frame's node, which stands at `at`: its right side is evaluated, and its values are bound to its names.
#[cycle(evaluation)]
fn equation(
    file: &[u8],
    tab: &[u8],
    at: usize,
    i: usize,
    frame: &mut Frame,
    old: &[u8],
    new: &mut [u8],
) -> Ending
    requires { CanEquate file.now tab.now i at frame.old old.now new.old }
    ensures { on (λ k. EquationTo file.now (consts_of tab.now) k i) frame.old old.now result frame.new.cells.now new.new × Keeps frame.old frame.new }
{
    let n = usize::from(file[at]);
    let rhs = at + 1 + 2 * n;
    if is_scalar(file, tab, rhs) {
        let r = eval(file, tab, rhs, 24, frame, old, new);
        frame.bind_out(tab, at + 1, r.out)
    } else if rhs_cells(file, tab, frame.node, i, at) <= 32 {
        equation_32(file, tab, at, i, frame, old, new)
    } else {
        equation_1024(file, tab, at, i, frame, old, new)
    }
}

// Whether the right side at `rhs` is evaluated as a scalar: it is no call, no Tuple and no array.
fn is_scalar(file: &[u8], tab: &[u8], rhs: usize) -> bool
    requires { Planned file.now (tab_of tab.now) (rows_of tab.now) (consts_of tab.now) 24 rhs }
    ensures { (node : ℕ) → Plan file.now (tab_of tab.now) (rows_of tab.now) (consts_of tab.now) node 24 1 rhs → result ≡ scalar_rhs file.now node rhs }
{
    match Form::at(file, rhs) {
        Form::Call | Form::Tuple => false,
        _ => array_length(file, tab, rhs, 24) == 0,
    }
}

// How many cells the right side of equation i of node k takes, which stands at `at`: its names' cells, and a call's arguments.
fn rhs_cells(file: &[u8], tab: &[u8], k: usize, i: usize, at: usize) -> usize
    requires { EquationPlan file.now (tab_of tab.now) (rows_of tab.now) (consts_of tab.now) k i × (k < nodes_in file.now) × (at ≡ place_in file.now k i) }
    ensures { result ≡ equation_cells file.now (tab_of tab.now) k i }
{
    let n = usize::from(file[at]);
    let rhs = at + 1 + 2 * n;
    match callee_at(file, rhs) {
        Some(c) => {
            let inputs = cells_of(tab, c, 1);
            inputs.max(cells_of(tab, c, 2) - inputs)
        }
        None => named_cells(tab, k, at + 1, n),
    }
}

// With an array for 32 cells. It is put into its callers: measured faster.
#[cycle(evaluation)]
#[inline(always)]
fn equation_32(
    file: &[u8],
    tab: &[u8],
    at: usize,
    i: usize,
    frame: &mut Frame,
    old: &[u8],
    new: &mut [u8],
) -> Ending
    requires { CanEquate file.now tab.now i at frame.old old.now new.old × (scalar_rhs file.now frame.old.node (rhs_in file.now frame.old.node i) ≡ false) × (equation_cells file.now (tab_of tab.now) frame.old.node i ≤ 32) }
    ensures { on (λ k. EquationTo file.now (consts_of tab.now) k i) frame.old old.now result frame.new.cells.now new.new × Keeps frame.old frame.new }
{
    let mut work = [0u8; 288];
    equation_in(file, tab, at, i, frame, &mut work, old, new)
}

// With an array for 1024 cells.
#[cycle(evaluation)]
#[inline(never)]
fn equation_1024(
    file: &[u8],
    tab: &[u8],
    at: usize,
    i: usize,
    frame: &mut Frame,
    old: &[u8],
    new: &mut [u8],
) -> Ending
    requires { CanEquate file.now tab.now i at frame.old old.now new.old × (scalar_rhs file.now frame.old.node (rhs_in file.now frame.old.node i) ≡ false) × (equation_cells file.now (tab_of tab.now) frame.old.node i ≤ 1024) }
    ensures { on (λ k. EquationTo file.now (consts_of tab.now) k i) frame.old old.now result frame.new.cells.now new.new × Keeps frame.old frame.new }
{
    let mut work = [0u8; 9216];
    equation_in(file, tab, at, i, frame, &mut work, old, new)
}

// An equation whose right side is a call, a Tuple or an array: its cells are evaluated into `work`, and once all have succeeded they are bound.
#[cycle(evaluation)]
#[inline(always)]
fn equation_in(
    file: &[u8],
    tab: &[u8],
    at: usize,
    i: usize,
    frame: &mut Frame,
    work: &mut [u8],
    old: &[u8],
    new: &mut [u8],
) -> Ending
    requires { CanEquate file.now tab.now i at frame.old old.now new.old × (scalar_rhs file.now frame.old.node (rhs_in file.now frame.old.node i) ≡ false) × (9 * equation_cells file.now (tab_of tab.now) frame.old.node i ≤ length work.old) }
    ensures { on (λ k. EquationTo file.now (consts_of tab.now) k i) frame.old old.now result frame.new.cells.now new.new × Keeps frame.old frame.new }
{
    let n = usize::from(file[at]);
    let rhs = at + 1 + 2 * n;
    let r = match Form::at(file, rhs) {
        Form::Call => enter(file, tab, rhs, 24, frame, work, old, new),
        Form::Tuple => eval_all(file, tab, rhs, 23, frame, work, old, new),
        _ => eval_array(file, tab, rhs, 24, frame, work, old, new),
    };
    let Ending::Values = r.out else {
        return r.out;
    };
    frame.bind(tab, at + 1, n, work);
    Ending::Values
}
