// A cycle of the main instance: its run on the old state and the inputs, and what it leaves.
ghost use Rattle.std.specs.Prelude.{◌≡◌, ◌≤◌, List, length};
ghost use Rattle.ol_spec.specs.Step.{own_size};
ghost use Rattle.ol_spec.specs.declared.Value.{Value};
ghost use Rattle.ol_tables.specs.At.{node_in};
ghost use Rattle.ol_tables.specs.Table.{tab_of, rows_of, known_of, consts_of};
ghost use Rattle.ol_frame.specs.Plans.{width_in};
ghost use Rattle.ol_eval.specs.Calls.{Wide};
ghost use Rattle.ol_run.specs.MainCycle.{RecordReady, RecordRan, record_run, RunReady, CyclesTo};

use ol_eval::eval::{Ended, run};
use ol_frame::copies::{copy, write_cells};
use ol_frame::frame::Frame;
use ol_frame::outcomes::Ending;
use ol_frame::tables::cells_of;
use ol_spec::{Cycled, Fault};
use ol_tables::table::known;

// The run on the main record, in a frame of these cells: where it finished, the record and the values are written anew; else the segments of its equations are moved, and the rest stays.
fn run_record(
    file: &[u8],
    tab: &[u8],
    main: usize,
    cells: &mut [u8],
    old: &[u8],
    inputs: &[u8],
    new: &mut [u8],
    values: &mut [u8],
) -> Ended
    requires { RecordReady file.now (tab_of tab.now) (rows_of tab.now) (consts_of tab.now) main inputs.now old.now new.old values.old (length cells.old) }
    ensures { RecordRan (record_run file.now (consts_of tab.now) main inputs.now old.now) (own_size (node_in file.now main)) old.now values.old result new.new values.new }
{
    let n = cells_of(tab, main, 3);
    let own = 1 + 9 * n;
    let mut frame = Frame::open(main, n, cells_of(tab, main, 1), inputs, old, cells);
    let r = run(file, tab, &mut frame, &old[own..], &mut new[own..]);
    if let Ending::Values = r.end {
        frame.finish(n, new);
        write_cells(n, frame.cells, values);
    }
    r
}

// The cycle, in a frame of these cells: the new state and the values. A failure, whatever its cause, keeps the main cells and the
// started byte, with the instances moved; an overflow keeps the old state.
fn run_in(
    file: &[u8],
    tab: &[u8],
    main: usize,
    cells: &mut [u8],
    old: &[u8],
    inputs: &[u8],
    new: &mut [u8],
    values: &mut [u8],
) -> Cycled
    requires { RunReady file.now (tab_of tab.now) (rows_of tab.now) (known_of tab.now) (consts_of tab.now) main old.now inputs.now new.old values.old × Wide file.now main (length cells.old) }
    ensures { (vs : List Value) → CyclesTo file.now (consts_of tab.now) vs old.now inputs.now values.old result new.new values.new }
{
    let head = 9 * known(tab);
    copy(old, new);
    let r = run_record(
        file,
        tab,
        main,
        cells,
        &old[head..],
        inputs,
        &mut new[head..],
        values,
    );
    let place = r.index;
    match r.end {
        Ending::Values => Cycled::Answered,
        Ending::Failed(c) => Cycled::Stopped(Fault {
            number: u8::from(c),
            place,
        }),
        // 19 is an overflow's number, which has no Cause.
        Ending::Overflowed => {
            copy(old, new);
            Cycled::Stopped(Fault { number: 19, place })
        }
    }
}

// In a frame for 32 cells.
fn run_32(
    file: &[u8],
    tab: &[u8],
    main: usize,
    old: &[u8],
    inputs: &[u8],
    new: &mut [u8],
    values: &mut [u8],
) -> Cycled
    requires { RunReady file.now (tab_of tab.now) (rows_of tab.now) (known_of tab.now) (consts_of tab.now) main old.now inputs.now new.old values.old × Wide file.now main 288 }
    ensures { (vs : List Value) → CyclesTo file.now (consts_of tab.now) vs old.now inputs.now values.old result new.new values.new }
{
    let mut cells = [0u8; 288];
    run_in(file, tab, main, &mut cells, old, inputs, new, values)
}

// In a frame for 112 cells.
fn run_112(
    file: &[u8],
    tab: &[u8],
    main: usize,
    old: &[u8],
    inputs: &[u8],
    new: &mut [u8],
    values: &mut [u8],
) -> Cycled
    requires { RunReady file.now (tab_of tab.now) (rows_of tab.now) (known_of tab.now) (consts_of tab.now) main old.now inputs.now new.old values.old × Wide file.now main 1008 }
    ensures { (vs : List Value) → CyclesTo file.now (consts_of tab.now) vs old.now inputs.now values.old result new.new values.new }
{
    let mut cells = [0u8; 1008];
    run_in(file, tab, main, &mut cells, old, inputs, new, values)
}

// In a frame for 3,584 cells.
#[inline(never)]
fn run_3584(
    file: &[u8],
    tab: &[u8],
    main: usize,
    old: &[u8],
    inputs: &[u8],
    new: &mut [u8],
    values: &mut [u8],
) -> Cycled
    requires { RunReady file.now (tab_of tab.now) (rows_of tab.now) (known_of tab.now) (consts_of tab.now) main old.now inputs.now new.old values.old × Wide file.now main 32256 }
    ensures { (vs : List Value) → CyclesTo file.now (consts_of tab.now) vs old.now inputs.now values.old result new.new values.new }
{
    let mut cells = [0u8; 32256];
    run_in(file, tab, main, &mut cells, old, inputs, new, values)
}

// The cycle, in a frame for as many cells as the main node has, or a few more.
pub fn run_main(
    file: &[u8],
    tab: &[u8],
    main: usize,
    old: &[u8],
    inputs: &[u8],
    new: &mut [u8],
    values: &mut [u8],
) -> Cycled
    requires { RunReady file.now (tab_of tab.now) (rows_of tab.now) (known_of tab.now) (consts_of tab.now) main old.now inputs.now new.old values.old }
    ensures { (vs : List Value) → CyclesTo file.now (consts_of tab.now) vs old.now inputs.now values.old result new.new values.new }
{
    let cells = cells_of(tab, main, 3);
    if cells <= 32 {
        run_32(file, tab, main, old, inputs, new, values)
    } else if cells <= 112 {
        run_112(file, tab, main, old, inputs, new, values)
    } else {
        run_3584(file, tab, main, old, inputs, new, values)
    }
}
