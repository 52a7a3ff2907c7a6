// Faults 7 to 10 of the nodes, and the lengths of their records: a node's variables are entered, its equations judged, and its variables taken back.
ghost use Rattle.std.specs.Prelude.{◌≡◌, ℕ, map, ◌≤◌, ◌<◌, ◌+◌, ◌*◌, length, set};
ghost use Rattle.ol_spec.specs.Syntax.{variables, name_of};
ghost use Rattle.ol_tables.specs.At.{file_at};
ghost use Rattle.ol_tables.specs.Tables.{node_of, row_at};
ghost use Rattle.ol_tables.specs.Numbers.{numbers};
ghost use Rattle.ol_check.specs.Entries.{forget_all};
ghost use Rattle.ol_check.specs.Spans.{Visited};
ghost use Rattle.ol_check.specs.Judging.{findings};
ghost use Rattle.ol_check.specs.NodesJudged.{NodeReady, NodeVisited, node_table, NodeJudged, RowsReady, NamesReady, NodesJudged, NodePlanned, PlansReady, PlansBelow, TypesLeft, ConstantsLeft};
ghost use Rattle.ol_check.specs.Records.{record_by};
ghost use Rattle.ol_check.specs.Sizes.{NodesSized};

use super::Faults;
use super::judge::Judge;
use super::names::{declare, forget};
use super::rows::{cells_by, each_variable};
use super::size::record_size;
use ol_tables::bytes::{byte, name};
use ol_tables::tables::FileRows;

// The variables of node `k`: at each one `visit` changes the table, given its number and where it stands.
// `NodeReady` is asked here and by four functions: it holds where the reading ended, so it is no proposition as it stands. A ghost field of a struct of the file, the rows and `k`
// would take it in `∥ .. ∥₁`, and each proof would open it before it reads a part.
fn node_variables<F: Fn(&mut [u8], usize, usize)>(
    file: &[u8],
    table: &mut [u8],
    rows: &FileRows,
    k: usize,
    visit: F,
)
    requires ready { NodeReady file.now (numbers rows.now) (length (file_at file.now).nodes) k }
    requires taken { (y : _) (i p : ℕ) → i < 112 → F.pre visit y i p }
    ensures { NodeVisited (λ t i p u. Visited (λ y y'. F.post visit y i p tt y') t u) file.now (numbers rows.now) k table.old table.new }
{
    let row = rows.node(k);
    let at = row.place;
    let inputs = row.inputs;
    let outputs = row.outputs;
    let o = each_variable(file, table, 0, inputs, at + 2, &visit);
    let l = each_variable(file, table, inputs, outputs, o + 1, &visit);
    let locals = byte(file, l);
    each_variable(file, table, inputs + outputs, locals, l + 1, &visit);
}

// Enters the variables of node `k`.
fn declare_node(file: &[u8], names: &mut [u8], rows: &FileRows, k: usize)
    requires { NodeReady file.now (numbers rows.now) (length (file_at file.now).nodes) k }
    ensures { names.new ≡ node_table names.old (node_of (file_at file.now) k) }
{
    node_variables(file, names, rows, k, |names, i, at| {
        declare(names, name(file, at), (i + 1) as u8)
    });
}

// Takes the entries of the variables of node `k` back.
fn forget_node(file: &[u8], names: &mut [u8], rows: &FileRows, k: usize)
    requires { NodeReady file.now (numbers rows.now) (length (file_at file.now).nodes) k }
    ensures { names.new ≡ forget_all names.old (map name_of (variables (node_of (file_at file.now) k))) }
{
    node_variables(file, names, rows, k, |names, _, at| {
        forget(names, name(file, at))
    });
}

// Judges node `k`, and stores the length of its records. The table by name is as before in the end. The types of the constants stand in the plans from `constants` on.
// That `plans` has room for the plans stays a fact here and in two functions: a struct of `slots` and `plans` would hold two `&mut`, and lend each of them in every call.
fn node(
    file: &[u8],
    names: &mut [u8],
    slots: &mut [u8],
    plans: &mut [u8],
    rows: &mut FileRows,
    nodes: usize,
    constants: usize,
    arrays: bool,
    k: usize,
    g: &mut Faults,
)
    requires { NodeReady file.now (numbers rows.old) nodes k × NamesReady names.old (file_at file.now) × PlansReady file.now constants arrays plans.old }
    ensures { (names.new ≡ names.old) × (numbers rows.new ≡ set (numbers rows.old) (k * 8 + 6) (record_by (row_at (numbers rows.old) k 0) g.new.size)) × NodeJudged file.now names.old (numbers rows.old) nodes (file_at file.now) k slots.old slots.new (findings g.old) (findings g.new) × NodePlanned (numbers rows.old) nodes (file_at file.now) k plans.old plans.new }
{
    declare_node(file, names, rows, k);
    let mut defined = [false; 256];
    let row = *rows.node(k);
    let (types, plan) = plans.split_at_mut(row.place + 2 * row.variables);
    g.size = 1 + 9 * cells_by(arrays, types, row.place, row.variables);
    g.next = row.equations;
    let judge = Judge {
        file,
        names,
        rows,
        nodes,
        node: k,
        plans: types,
        variables: row.place,
        constants,
        arrays,
    };
    judge.equations(slots, plan, &mut defined, row.inputs, row.count, g);
    forget_node(file, names, rows, k);
    rows.put_size(k, record_size(row.kind, g.size));
}

// Judges all nodes, and stores the lengths of their records; that of an instance of the last node is answered.
pub(crate) fn judge_nodes(
    file: &[u8],
    names: &mut [u8],
    slots: &mut [u8],
    plans: &mut [u8],
    rows: &mut FileRows,
    nodes: usize,
    constants: usize,
    arrays: bool,
    g: &mut Faults,
)
    requires { RowsReady file.now (numbers rows.old) nodes × NamesReady names.old (file_at file.now) × PlansReady file.now constants arrays plans.old }
    ensures { (names.new ≡ names.old) × NodesJudged file.now names.old (file_at file.now) slots.old slots.new (findings g.old) (findings g.new) × NodesSized (file_at file.now) (numbers rows.old) (numbers rows.new) g.old.size g.new.size × PlansBelow (file_at file.now) plans.new nodes × TypesLeft (file_at file.now) plans.old plans.new × ConstantsLeft (file_at file.now) plans.old plans.new }
{
    for k in 0..nodes {
        node(
            file, names, slots, plans, rows, nodes, constants, arrays, k, g,
        );
    }
}
