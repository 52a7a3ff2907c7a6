// An inner part of the runtime: admission's fault 22 of a file without 6 to 10: an array or a scalar in a place that is not for it, or an iterator that does not suit its arrays or its node.
#![tactic(auto)]

mod shapes; // shapes.rt: shapes, read off the forms
mod places; // places.rt: what a place takes, and each expression judged by the place in which it stands

ghost use Rattle.std.specs.Prelude.{◌≡◌, map, ◌+◌, ◌≤◌, ◌<◌, length, get_or};
ghost use Rattle.ol_spec.specs.Places.{constants_start, nodes_start, placed_constants, placed_nodes};
ghost use Rattle.ol_spec.specs.Admission.{first_some, constant_misplaced, node_misplaced, under, fault22};
ghost use Rattle.ol_spec.specs.Demand3.{Bytes};
ghost use Rattle.ol_tables.specs.At.{file_at};
ghost use Rattle.ol_tables.specs.Heads.{ty_length_at};
ghost use Rattle.ol_tables.specs.Tables.{place_of, node_of};
ghost use Rattle.ol_tables.specs.Numbers.{numbers};
ghost use Rattle.ol_shapes.specs.Codes.{option_of, place_in, fault_of, type_shape};
ghost use Rattle.ol_shapes.specs.Laid.{Laid, ItemsJudged, OutputsSuit, OutputsJudged, EquationJudged};

use ol_spec::type_codes::ARRAY;
use ol_tables::bytes::{byte, name};
use ol_tables::form::Form;
use ol_tables::heads::ty_size;
use ol_tables::tables::FileRows;
use places::{Misplaced, Place, takes, under};
use shapes::{Shapes, shape_of};

// The length of the array whose type stands at `at`; 0 for a scalar.
fn array_length(file: &[u8], at: usize) -> usize
    requires { at ≤ 65536 }
    ensures { result ≡ ty_length_at file.now at }
{
    if byte(file, at) == usize::from(ARRAY) {
        byte(file, at + 1)
    } else {
        0
    }
}

impl Shapes<'_> {
    // The place under the name that the equation of node k defines at p.
    fn name_place(&self, k: usize, p: usize) -> Place
        ensures { k < 32 → place_in result ≡ under (type_shape (numbers self.now.rows.now) self.now.plans.now k (get_or self.now.slots.now p 0)) }
    {
        under(self.variable_shape(k, byte(self.slots, p)))
    }

    // The items of the Tuple at `at`, each under the name of node k that stands with it from `names` on.
    fn items(&self, k: usize, names: usize, at: usize) -> Result<(), Misplaced>
        requires { (names ≤ 65536) × (at ≤ 70000) }
        ensures { ItemsJudged self.now.file.now (numbers self.now.rows.now) self.now.slots.now self.now.plans.now k names at result }
    {
        let mut next = at + 2;
        for i in 0..byte(self.file, at + 1) {
            next = self.misplaced(self.name_place(k, names + 2 * i), next, 23)?;
        }
        Ok(())
    }

    // Whether the outputs of node c suit the names of node k, so many from `names` on.
    fn outputs_suit(&self, k: usize, names: usize, many: usize, c: usize) -> bool
        requires { (names ≤ 65536) × (many ≤ 256) }
        ensures { OutputsSuit (numbers self.now.rows.now) self.now.slots.now self.now.plans.now k names many c result }
    {
        for i in 0..many {
            if !takes(self.name_place(k, names + 2 * i), self.output_shape(c, i)) {
                return false;
            }
        }
        true
    }

    // The call at `at` as a whole right side, under the names of node k, so many from `names` on.
    fn outputs(&self, k: usize, names: usize, many: usize, at: usize) -> Result<(), Misplaced>
        requires { (names ≤ 65536) × (many ≤ 256) × (at ≤ 70000) }
        ensures { OutputsJudged self.now.file.now (numbers self.now.rows.now) self.now.slots.now self.now.plans.now k names many at result }
    {
        self.parts(at, 23)?;
        if self.outputs_suit(k, names, many, byte(self.file, at + 1)) {
            Ok(())
        } else {
            Err(Misplaced { at })
        }
    }

    // The equation of node k at `at`.
    fn equation(&self, k: usize, at: usize) -> Result<(), Misplaced>
        requires { at < 65536 }
        ensures { EquationJudged self.now.file.now (numbers self.now.rows.now) self.now.slots.now self.now.plans.now k at result }
    {
        let many = byte(self.file, at);
        let names = at + 1;
        let rhs = names + 2 * many;
        match self.form(rhs) {
            Form::Tuple => self.items(k, names, rhs),
            Form::Call => self.outputs(k, names, many, rhs),
            _ => {
                self.misplaced(self.name_place(k, names), rhs, 24)?;
                Ok(())
            }
        }
    }

    // The equations of node k, as its plan tells them.
    fn equations(&self, k: usize) -> Result<(), Misplaced>
        requires { Laid self.now.file.now (numbers self.now.rows.now) self.now.slots.now self.now.plans.now × Bytes self.now.file.now × (k < length (file_at self.now.file.now).nodes) }
        ensures { fault_of result ≡ node_misplaced (file_at self.now.file.now) (place_of (placed_nodes (file_at self.now.file.now)) k, node_of (file_at self.now.file.now) k) }
    {
        let row = self.rows.node(k);
        let plan = row.place + 2 * row.variables;
        for i in 0..row.count {
            self.equation(k, name(self.plans, plan + 2 * i))?;
        }
        Ok(())
    }

    // The constants, so many from `at` on, each under its name.
    fn constants(&self, count: usize, at: usize) -> Result<(), Misplaced>
        requires { Laid self.now.file.now (numbers self.now.rows.now) self.now.slots.now self.now.plans.now × Bytes self.now.file.now × (count ≡ length (file_at self.now.file.now).constants) × (at ≡ constants_start (file_at self.now.file.now)) }
        ensures { fault_of result ≡ first_some (map (constant_misplaced (file_at self.now.file.now)) (placed_constants (file_at self.now.file.now))) }
    {
        let file = self.file;
        let mut next = at;
        for _ in 0..count {
            let ty = next + 2;
            let place = under(shape_of(array_length(file, ty)));
            next = self.misplaced(place, ty + ty_size(file, ty), 24)?;
        }
        Ok(())
    }

    // The nodes.
    fn nodes(&self, count: usize) -> Result<(), Misplaced>
        requires { Laid self.now.file.now (numbers self.now.rows.now) self.now.slots.now self.now.plans.now × Bytes self.now.file.now × (count ≡ length (file_at self.now.file.now).nodes) }
        ensures { fault_of result ≡ first_some (map (node_misplaced (file_at self.now.file.now)) (placed_nodes (file_at self.now.file.now))) }
    {
        for k in 0..count {
            self.equations(k)?;
        }
        Ok(())
    }

    // The constants, then the nodes. Their counts stand at `constants` and `nodes`.
    fn all(&self, constants: usize, nodes: usize) -> Result<(), Misplaced>
        requires { Laid self.now.file.now (numbers self.now.rows.now) self.now.slots.now self.now.plans.now × Bytes self.now.file.now × (constants + 1 ≡ constants_start (file_at self.now.file.now)) × (nodes + 1 ≡ nodes_start (file_at self.now.file.now)) }
        ensures { fault_of result ≡ fault22 (file_at self.now.file.now) }
    {
        self.constants(byte(self.file, constants), constants + 1)?;
        self.nodes(byte(self.file, nodes))
    }
}

// The place of the first faulted expression without a faulted part. The counts of the constants and of the nodes stand at `constants` and `nodes`.
pub fn misshapen(
    file: &[u8],
    rows: &FileRows,
    constants: usize,
    nodes: usize,
    slots: &[u8],
    plans: &[u8],
) -> Option<usize>
    requires { Laid file.now (numbers rows.now) slots.now plans.now × (constants + 1 ≡ constants_start (file_at file.now)) × (nodes + 1 ≡ nodes_start (file_at file.now)) }
    ensures { option_of result ≡ fault22 (file_at file.now) }
{
    let shapes = Shapes {
        file,
        rows,
        slots,
        plans,
    };
    match shapes.all(constants, nodes) {
        Ok(()) => None,
        Err(m) => Some(m.at),
    }
}
