// Faults 7, 9 and 10 of the constants: each sees the variants and the constants before it.
ghost use Rattle.std.specs.Prelude.{◌≡◌, ◌≤◌, ◌<◌, length};
ghost use Rattle.ol_spec.specs.Admission.{variants};
ghost use Rattle.ol_tables.specs.At.{file_at};
ghost use Rattle.ol_tables.specs.Numbers.{numbers};
ghost use Rattle.ol_check.specs.Judging.{findings};
ghost use Rattle.ol_check.specs.ConstantsJudged.{ConstantReady, ConstantWalked, ConstantsJudged, ConstantsTyped, ConstantsReady, ConstantRoom};

use super::Faults;
use super::judge::Judge;
use super::names::{FIRST_CONSTANT, declare};
use super::rows::{put_type, variable_end};
use ol_tables::bytes::name;
use ol_tables::tables::FileRows;

// Constant number `i`, where the walk stands: its type is stored, the types of the constants standing from `types` on; its value is judged, then its name entered.
fn constant(
    file: &[u8],
    names: &mut [u8],
    slots: &mut [u8],
    plans: &mut [u8],
    rows: &FileRows,
    nodes: usize,
    types: usize,
    arrays: bool,
    i: usize,
    g: &mut Faults,
)
    requires { ConstantReady file.now names.old plans.old types arrays i g.old.next × (nodes ≤ 32) × (g.old.size ≤ 65536) }
    ensures { ConstantWalked file.now names.old (numbers rows.now) nodes types i slots.old slots.new plans.old plans.new names.new (findings g.old) (findings g.new) }
{
    let at = g.next;
    put_type(file, plans, types + 2 * i, at + 2);
    g.next = variable_end(file, at);
    let judge = Judge {
        file,
        names,
        rows,
        nodes,
        node: 0,
        plans,
        variables: 0,
        constants: types,
        arrays,
    };
    judge.walk(slots, 1, g);
    declare(names, name(file, at), (i + FIRST_CONSTANT) as u8);
}

// So many constants from where the walk stands. Seven things are passed on here, in `constant` and in the two of nodes.rt: `names`, `slots`, `plans` and `g` are written, in nodes.rt
// `rows` too, so a struct would hold four `&mut` and lend each in every call; and `Judge` only reads `names` and `plans`, so it is made between two writes to them.
pub(crate) fn judge_constants(
    file: &[u8],
    names: &mut [u8],
    slots: &mut [u8],
    plans: &mut [u8],
    rows: &FileRows,
    nodes: usize,
    types: usize,
    arrays: bool,
    many: usize,
    g: &mut Faults,
)
    requires { (length file.now ≤ 32768) × (many ≡ length (file_at file.now).constants) × (many ≤ 64) × (nodes ≤ 32) × ConstantsReady file.now names.old (numbers rows.now) nodes (file_at file.now) (variants (file_at file.now)) (length (file_at file.now).enums) g.old.next (file_at file.now).constants × ConstantRoom file.now names.old types arrays plans.old × (g.old.size ≤ 65536) }
    ensures judged { ConstantsJudged file.now names.old (file_at file.now) (variants (file_at file.now)) g.old.next (file_at file.now).constants slots.old slots.new names.new (findings g.old) (findings g.new) }
    ensures typed { ConstantsTyped types (file_at file.now).constants plans.old plans.new }
{
    for i in 0..many {
        if file.len() <= g.next {
            return;
        }
        constant(file, names, slots, plans, rows, nodes, types, arrays, i, g);
    }
}
