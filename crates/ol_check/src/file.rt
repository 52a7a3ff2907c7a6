// Faults 7 to 10 of a whole file, the slots of its names, and the lengths of its records.
ghost use Rattle.std.proofs.Math.Option.{none};
ghost use Rattle.std.specs.Prelude.{◌≡◌, ℕ, ◌+◌, ◌*◌, ◌<◌, ◌≤◌, length};
ghost use Rattle.ol_spec.specs.Admission.{fault9};
ghost use Rattle.ol_spec.specs.Places.{constants_start};
ghost use Rattle.ol_tables.specs.At.{file_at};
ghost use Rattle.ol_tables.specs.Tables.{PlanOf, Told, constant_of};
ghost use Rattle.ol_tables.specs.Numbers.{numbers};
ghost use Rattle.ol_check.specs.FileJudged.{FileReady, NamesWithin, FileJudged};
ghost use Rattle.ol_check.specs.Arrays.{declares_arrays};
ghost use Rattle.ol_check.specs.NodesJudged.{TypesLeft, PlansTyped};

use super::Faults;
use super::constants::judge_constants;
use super::names::declare_enums;
use super::nodes::judge_nodes;
use super::rows::Sections;
use ol_tables::bytes::byte;
use ol_tables::tables::FileRows;

// Faults 7 to 10 of a file that reads without fault, and the bytes of an instance of its last node, given whether arrays are declared.
// The table by name is empty, and longer than every declared name. The slots of the names are written into `slots`. In `plans` stand the
// nodes' plans, of which the types are left, and the types of the constants; what the other bytes there are is not told.
pub fn faults(
    file: &[u8],
    rows: &mut FileRows,
    sections: Sections,
    names: &mut [u8],
    slots: &mut [u8],
    plans: &mut [u8],
    arrays: bool,
) -> Faults
    requires { FileReady file.now (numbers rows.old) names.old sections × NamesWithin (length names.old) (file_at file.now) × PlansTyped file.now plans.old × (arrays ≡ declares_arrays (file_at file.now)) }
    ensures judged { FileJudged file.now (file_at file.now) names.old names.new slots.old slots.new (numbers rows.old) (numbers rows.new) result }
    ensures planned { fault9 (file_at file.now) ≡ none → (k : ℕ) → k < length (file_at file.now).nodes → PlanOf (file_at file.now) plans.new k }
    ensures typed { TypesLeft (file_at file.now) plans.old plans.new }
    ensures constants { (i : ℕ) → i < length (file_at file.now).constants → Told plans.new (constants_start (file_at file.now) + 2 * i) (constant_of (file_at file.now) i).1.ty }
{
    let c = sections.constants;
    let n = sections.nodes;
    let nodes = byte(file, n);
    declare_enums(file, names, byte(file, 1), 2);
    let mut g = Faults {
        arrays,
        next: c + 1,
        ..Faults::default()
    };
    judge_constants(
        file,
        names,
        slots,
        plans,
        rows,
        nodes,
        c + 1,
        arrays,
        byte(file, c),
        &mut g,
    );
    judge_nodes(
        file,
        names,
        slots,
        plans,
        rows,
        nodes,
        c + 1,
        arrays,
        &mut g,
    );
    g
}
