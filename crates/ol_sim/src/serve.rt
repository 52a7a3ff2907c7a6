// The one way of every public call: the file is loaded, the lengths of its tables are chosen, it is judged, and a call is made on its program.
ghost use Rattle.std.specs.Prelude.{◌≡◌, ◌+◌, ◌*◌, ◌≤◌, ◌<◌, length};
ghost use Rattle.ol_tables.specs.At.{file_at};
ghost use Rattle.ol_tables.specs.Numbers.{numbers};
ghost use Rattle.ol_sim.specs.Judging.{Below, Loads, Low, Found, cells_in, SectionsReady, Countable, CountsOnly, TypesIn, FileReady};
ghost use Rattle.ol_sim.specs.Serving.{Callable, Serves};

use crate::judge::judge_names;
use crate::program::{Program, Project};
use ol_check::clash::{Sorting, sort_file};
use ol_check::rows::{Sections, constant_cells, count_cells, rows_of};
use ol_ir::project::load_file;
use ol_spec::Fault;
use ol_tables::table::{LARGE_TAB, NODES, ORDERS, SLOTS, SMALL_TAB, TINY_TAB, WIDE_TAB};
use ol_tables::tables::FileRows;

// Judges with an empty table by name, which is longer than every declared name, and calls.
// `rows` and `tab` stay two parameters: of a struct of two `&mut` every clause would have to keep both ghost names.
// `Callable` is asked at each step down to the call: a closure has no ghost field that could hold it.
fn serve_named<const N: usize, R, F: FnMut(&Program) -> R>(
    project: &Project,
    rows: &mut FileRows,
    tab: &mut [u8],
    sections: Sections,
    cells: usize,
    low: bool,
    sorted: Sorting,
    call: &mut F,
) -> Result<R, Fault>
    requires callable { Callable (F.pre call.old) }
    requires loads { Loads project.now }
    requires sections_ready { SectionsReady project.now.file.now (numbers rows.old) tab.old sections cells }
    requires below { Below N (file_at project.now.file.now) }
    requires lows { Low project.now.file.now low }
    requires found { Found (file_at project.now.file.now) sorted }
    requires fits { N ≤ 65536 }
    ensures { Serves (F.step call.old) call.old project.now.file.now result call.new }
{
    let mut names = [0u8; N];
    let admitted = judge_names(project, rows, tab, &mut names, sections, cells, low, sorted)?;
    Ok(call(&Program {
        file: project.file,
        tab,
        names: &names,
        size: admitted.size,
        main: admitted.main,
    }))
}

// With every declared name below N, which is more than 1,024. It stays out of `serve_with`: a call with low names does not touch these
// tables' stack.
#[inline(never)]
fn serve_sorted<const N: usize, R, F: FnMut(&Program) -> R>(
    project: &Project,
    rows: &mut FileRows,
    tab: &mut [u8],
    sections: Sections,
    cells: usize,
    call: &mut F,
) -> Result<R, Fault>
    requires callable { Callable (F.pre call.old) }
    requires loads { Loads project.now }
    requires sections_ready { SectionsReady project.now.file.now (numbers rows.old) tab.old sections cells }
    requires below { Below N (file_at project.now.file.now) }
    requires fits { N ≤ 65536 }
    ensures { Serves (F.step call.old) call.old project.now.file.now result call.new }
{
    let mut sorts = [0u8; N];
    let s = sort_file(project.file, rows, sections, &mut sorts);
    serve_named::<N, R, F>(project, rows, tab, sections, cells, false, s, call)
}

// Where arrays are declared, the nodes' numbers count cells: until then each variable counts once.
fn count_arrays(project: &Project, rows: &FileRows, tab: &mut [u8], arrays: bool)
    requires loads { Loads project.now }
    requires countable { Countable project.now.file.now (numbers rows.now) tab.old arrays }
    ensures { TypesIn (file_at project.now.file.now) tab.new × CountsOnly tab.old tab.new }
{
    if arrays {
        let plans = SLOTS - NODES + (tab.len() - SLOTS) / 2;
        count_cells(rows, &mut tab[NODES..], plans, project.places.len());
    }
}

// With tables to write. Until the orders are written, their part of `tab` is blank: fault 6 uses 1,024 bytes of it.
fn serve_with<R, F: FnMut(&Program) -> R>(
    project: &Project,
    rows: &mut FileRows,
    tab: &mut [u8],
    cells: usize,
    call: &mut F,
) -> Result<R, Fault>
    requires callable { Callable (F.pre call.old) }
    requires loads { Loads project.now }
    requires ready { FileReady project.now.file.now tab.old cells }
    ensures { Serves (F.step call.old) call.old project.now.file.now result call.new }
{
    let file = project.file;
    let plans = SLOTS - NODES + (tab.len() - SLOTS) / 2;
    let sections = rows_of(file, project.places, rows, &mut tab[NODES..], plans);
    let s = sort_file(file, rows, sections, &mut tab[ORDERS..ORDERS + 1024]);
    count_arrays(project, rows, tab, s.arrays);
    if s.highest < 256 {
        serve_named::<256, R, F>(project, rows, tab, sections, cells, true, s, call)
    } else if s.highest < 1024 {
        // In a file of at most 256 bytes `orders_of` takes only names below 256 as low.
        let low = 256 < file.len();
        serve_named::<1024, R, F>(project, rows, tab, sections, cells, low, s, call)
    } else if s.highest < 8192 {
        serve_sorted::<8192, R, F>(project, rows, tab, sections, cells, call)
    } else {
        serve_sorted::<65536, R, F>(project, rows, tab, sections, cells, call)
    }
}

// With a table of N bytes. It stays out of `serve`: a small file does not touch the large table's stack.
#[inline(never)]
fn serve_sized<const N: usize, R, F: FnMut(&Program) -> R>(
    project: &Project,
    cells: usize,
    call: &mut F,
) -> Result<R, Fault>
    requires callable { Callable (F.pre call.old) }
    requires loads { Loads project.now }
    requires counted { cells ≡ cells_in (file_at project.now.file.now) }
    requires room { (4210 + 2 * length project.now.file.now ≤ N) × (N ≤ 69746 → cells ≤ 64) × (69746 < N → 106610 ≤ N) }
    requires fits { N ≤ 106610 }
    ensures { Serves (F.step call.old) call.old project.now.file.now result call.new }
{
    let mut rows = FileRows::new();
    let mut tab = [0u8; N];
    serve_with(project, &mut rows, &mut tab, cells, call)
}

// Calls on the file's program, or gives the fault for which it is not admitted. How many nodes the file has is known at the run only, and
// there is no heap: `starts` has the most, and its front is lent.
pub(crate) fn serve<R, F: FnMut(&Program) -> R>(file: &[u8], call: &mut F) -> Result<R, Fault>
    requires { Callable (F.pre call.old) }
    ensures { Serves (F.step call.old) call.old file.now result call.new }
{
    let mut starts = [0usize; 32];
    let loaded = load_file(file, &mut starts)?;
    let project = Project {
        file,
        enums: loaded.enums,
        places: &starts[..loaded.nodes],
    };
    let cells = constant_cells(file);
    if 64 < cells {
        serve_sized::<WIDE_TAB, R, F>(&project, cells, call)
    } else if file.len() <= 256 {
        serve_sized::<TINY_TAB, R, F>(&project, cells, call)
    } else if file.len() <= 1024 {
        serve_sized::<SMALL_TAB, R, F>(&project, cells, call)
    } else {
        serve_sized::<LARGE_TAB, R, F>(&project, cells, call)
    }
}
