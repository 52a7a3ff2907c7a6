// A frame: what the equations of an instance are run on.
ghost use Rattle.std.specs.Prelude.{◌≡◌, ◌∷◌, ◌++◌, ◌+◌, ◌*◌, ◌≤◌, length, drop};
ghost use Rattle.ol_frame.specs.Outcomes.{ending_of};
ghost use Rattle.ol_frame.specs.Stores.{Storable, StoresOut, Assignable, Assigns};
ghost use Rattle.ol_spec.specs.Cell.{cells, values_of};
ghost use Rattle.ol_spec.specs.Eval.{several};
ghost use Rattle.ol_tables.specs.Table.{tab_of, rows_of};
ghost use Rattle.ol_state.specs.Defaults.{own_count};

use crate::copies::{assign, copy_cells, store_out, write_cells};
use crate::outcomes::Ending;
use ol_spec::Outcome;
use ol_state::defaults::write_defaults;

// Whether it is the instance's first cycle, its node's number, its cells, and the cells before. `first` guards no field: the definitions have the cells before in a first cycle too, where a `pre` is cold.
#[derive(Drop)]
pub struct Frame<'a> {
    pub first: bool,
    pub node: usize,
    pub cells: &'a mut [u8],
    pub before: &'a [u8],
}

impl<'a> Frame<'a> {
    ghost use Rattle.ol_frame.specs.Frame.{Keeps, Opened, Freshened};

    // A frame of node k for a step on its record `old`, in `cells`: its inputs are `args`, the other cells and the cells before are the record's.
    pub fn open(
        k: usize,
        n: usize,
        inputs: usize,
        args: &[u8],
        old: &'a [u8],
        cells: &'a mut [u8],
    ) -> Frame<'a>
        requires { (inputs ≤ n) × (n ≤ 3584) × (9 * n ≤ length cells.old) × (9 * inputs ≤ length args.now) × (1 + 9 * n ≤ length old.now) }
        ensures same_reference { result.cells.ghost_name ≡ cells.entry.ghost_name }
        ensures long { length result.cells.now ≡ length cells.old }
        ensures opened { Opened k n inputs args.now old.now result }
    {
        let before = &old[1..];
        copy_cells(inputs, n, before, cells);
        copy_cells(0, inputs, args, cells);
        Frame {
            first: old[0] == 0,
            node: k,
            cells,
            before,
        }
    }

    // A frame of node k for a call of a Function, in `cells`: its inputs are `args`, the other cells and the cells before are defaults.
    pub fn fresh(
        tab: &[u8],
        k: usize,
        inputs: usize,
        args: &[u8],
        before: &'a mut [u8],
        cells: &'a mut [u8],
    ) -> Frame<'a>
        requires { (k ≤ 65535) × (inputs ≤ own_count (tab_of tab.now) (rows_of tab.now) k) × (inputs ≤ 3584) × (9 * own_count (tab_of tab.now) (rows_of tab.now) k ≤ length cells.old) × (9 * own_count (tab_of tab.now) (rows_of tab.now) k ≤ length before.old) × (9 * inputs ≤ length args.now) }
        ensures same_reference { result.cells.ghost_name ≡ cells.entry.ghost_name }
        ensures long { (length result.cells.now ≡ length cells.old) × (length result.before.now ≡ length before.old) }
        ensures freshened { Freshened (tab_of tab.now) (rows_of tab.now) k inputs args.now result }
    {
        write_defaults(tab, k, before);
        write_defaults(tab, k, cells);
        copy_cells(0, inputs, args, cells);
        Frame {
            first: true,
            node: k,
            cells,
            before,
        }
    }

    // The cells of the outputs, which stand behind the inputs, are copied to `args`.
    pub fn copy_outputs(&self, inputs: usize, outputs: usize, args: &mut [u8])
        requires { (outputs ≤ 3584) × (inputs ≤ 3584) × (9 * (inputs + outputs) ≤ length self.now.cells.now) × (9 * outputs ≤ length args.old) }
        ensures { values_of outputs args.new ≡ values_of outputs (drop (9 * inputs) self.now.cells.now) }
    {
        copy_cells(0, outputs, &self.cells[9 * inputs..], args);
    }

    // A finished step's record: started, with the present cells.
    pub fn finish(&self, n: usize, to: &mut [u8])
        requires { (n ≤ 3584) × (9 * n ≤ length self.now.cells.now) × (1 + 9 * n ≤ length to.old) }
        ensures { to.new ≡ 1 ∷ cells (values_of n self.now.cells.now) ++ drop (1 + 9 * n) to.old }
    {
        write_cells(n, self.cells, &mut to[1..]);
        to[0] = 1;
    }

    // Binds an outcome's value, if it has one, to the cell of the name that stands at `at`; answers how the equation ended.
    pub fn bind_out(&mut self, tab: &[u8], at: usize, o: Outcome) -> Ending
        requires { Storable (tab_of tab.now) (rows_of tab.now) self.old.node at self.old.cells.now }
        ensures { (result ≡ ending_of (several o)) × StoresOut (tab_of tab.now) (rows_of tab.now) self.old.node at o self.old.cells.now self.new.cells.now × Keeps self.old self.new }
    {
        store_out(tab, self.node, at, o, self.cells)
    }

    // Binds the cells of n names, which stand from `at` on: to each as many as it has.
    pub fn bind(&mut self, tab: &[u8], at: usize, n: usize, from: &[u8])
        requires { Assignable (tab_of tab.now) (rows_of tab.now) self.old.node at n from.now self.old.cells.now }
        ensures { Assigns (tab_of tab.now) (rows_of tab.now) self.old.node at n from.now self.old.cells.now self.new.cells.now × Keeps self.old self.new }
    {
        assign(tab, self.node, at, n, from, self.cells);
    }
}
