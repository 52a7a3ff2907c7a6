// Shapes, read off the forms: a scalar is None, an array its length.
ghost use Rattle.std.specs.Prelude.{◌≡◌, ℕ, ◌+◌, ◌≤◌, ◌<◌, min, length, get_or};
ghost use Rattle.ol_tables.specs.Tables.{row_at};
ghost use Rattle.ol_tables.specs.FormCodes.{code_of_form};
ghost use Rattle.ol_tables.specs.Numbers.{numbers, RowIs};
ghost use Rattle.ol_shapes.specs.Codes.{option_of, length_shape, type_shape, call_shape, all_scalar};
ghost use Rattle.ol_shapes.specs.Judges.{MapIs, FormIs, ShapeIs, IterableIs};

use ol_tables::bytes::byte;
use ol_tables::form::Form;
use ol_tables::kind::NodeKind;
use ol_tables::tables::{FileRows, Row};

// What shapes are read off: the file, its rows, and the slots and plans of its table.
#[derive(Clone, Copy)]
pub(crate) struct Shapes<'a> {
    pub(crate) file: &'a [u8],
    pub(crate) rows: &'a FileRows,
    pub(crate) slots: &'a [u8],
    pub(crate) plans: &'a [u8],
}

// The shape of an array of this length; 0 is a scalar's.
pub(crate) fn shape_of(n: usize) -> Option<usize>
    ensures { option_of result ≡ length_shape n }
{
    if n == 0 { None } else { Some(n) }
}

impl Shapes<'_> {
    // The form of the expression at `at`; a Bool's where the file ends.
    pub(crate) fn form(&self, at: usize) -> Form
        ensures { min (get_or self.now.file.now at 0) 15 ≡ code_of_form result }
    {
        if at < self.file.len() {
            Form::at(self.file, at)
        } else {
            Form::Bool
        }
    }

    // Node k's row; zeros where there is none.
    fn row(&self, k: usize) -> Row
        ensures { k < 32 → RowIs (numbers self.now.rows.now) k result }
    {
        match self.rows.row(k) {
            Some(row) => row,
            None => Row::default(),
        }
    }

    // The shape of variable i of node k. The sums saturate, since a row may have any numbers: past the plans every byte is 0.
    pub(crate) fn variable_shape(&self, k: usize, i: usize) -> Option<usize>
        ensures { k < 32 → option_of result ≡ type_shape (numbers self.now.rows.now) self.now.plans.now k i }
    {
        let at = self.row(k).place.saturating_add(i.saturating_mul(2));
        shape_of(byte(self.plans, at.saturating_add(1)))
    }

    // The shape of output i of node k.
    pub(crate) fn output_shape(&self, k: usize, i: usize) -> Option<usize>
        ensures { k < 32 → option_of result ≡ type_shape (numbers self.now.rows.now) self.now.plans.now k (row_at (numbers self.now.rows.now) k 2 + i) }
    {
        self.variable_shape(k, self.row(k).inputs.saturating_add(i))
    }

    // The shape of a call of node k: its one output's.
    fn call_shape(&self, k: usize) -> Option<usize>
        ensures { k < 32 → option_of result ≡ call_shape (numbers self.now.rows.now) self.now.plans.now k }
    {
        if self.row(k).outputs == 1 {
            self.output_shape(k, 0)
        } else {
            None
        }
    }

    // Whether the expression at `at` is a map.
    fn is_map(&self, at: usize) -> bool
        ensures { MapIs self.now.file.now at result }
    {
        match self.form(at) {
            Form::Iterator => byte(self.file, at + 1) == 0,
            _ => false,
        }
    }

    // The shape of the expression at `at`, which is no map.
    fn form_shape(&self, at: usize) -> Option<usize>
        ensures { FormIs self.now.file.now (numbers self.now.rows.now) self.now.slots.now self.now.plans.now at (option_of result) }
    {
        match self.form(at) {
            Form::Var => shape_of(byte(self.slots, at)),
            Form::Pre => match self.form(at + 1) {
                Form::Var => shape_of(byte(self.slots, at + 1)),
                _ => None,
            },
            Form::Call => self.call_shape(byte(self.file, at + 1)),
            Form::Literal => Some(byte(self.file, at + 1)),
            _ => None,
        }
    }

    // The shape of the expression at `at`: of a map its first array's.
    pub(crate) fn shape_at(&self, at: usize, level: usize) -> Option<usize>
        ensures { ShapeIs self.now.file.now (numbers self.now.rows.now) self.now.slots.now self.now.plans.now level at (option_of result) }
    {
        if !self.is_map(at) {
            return self.form_shape(at);
        }
        if byte(self.file, at + 3) == 0 || level == 0 {
            return Some(0);
        }
        match self.shape_at(at + 4, level - 1) {
            Some(n) => Some(n),
            None => Some(0),
        }
    }

    // Whether the first n variables of node k are scalars.
    fn all_scalars(&self, k: usize, n: usize) -> bool
        ensures { k < 32 → result ≡ all_scalar (type_shape (numbers self.now.rows.now) self.now.plans.now k) 0 n }
    {
        for i in 0..n {
            if self.variable_shape(k, i).is_some() {
                return false;
            }
        }
        true
    }

    // Whether node k is a Function of so many inputs, with one output, all of them scalars.
    pub(crate) fn iterable(&self, k: usize, inputs: usize) -> bool
        requires { inputs < 256 }
        ensures { IterableIs (numbers self.now.rows.now) self.now.plans.now k inputs result }
    {
        let row = self.row(k);
        NodeKind::Function.is(row.kind)
            && row.inputs == inputs
            && row.outputs == 1
            && self.all_scalars(k, inputs + 1)
    }
}
