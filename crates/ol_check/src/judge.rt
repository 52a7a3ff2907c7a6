// Faults 7 to 10 of every expression and equation, the slots of the names, and the records of the call sites.
ghost use Rattle.std.specs.Prelude.{◌≡◌, ◌||◌, ◌≤◌, ◌<◌, ◌+◌, ◌*◌, length};
ghost use Rattle.ol_spec.specs.Admission.{bad_call};
ghost use Rattle.ol_tables.specs.At.{file_at};
ghost use Rattle.ol_tables.specs.Tables.{node_of};
ghost use Rattle.ol_tables.specs.Numbers.{numbers};
ghost use Rattle.ol_check.specs.RowsDone.{cells_by};
ghost use Rattle.ol_check.specs.Judging.{Known, Looks, Scalars, unseen_b, slot_of_entry, cell_put, length_by, entry_put, var_put, slot_head, may_b, bad_b, called_b, outputs_b, arity_b, formed_b, findings, var_found, call_found, Walked};
ghost use Rattle.ol_check.specs.Judging.{taken_b, NamesDefined, lone_b, other_b, RootJudged, EquationWalked, seen_in, EquationsReady, EquationsJudged, Planned};

use super::names::{FIRST_CONSTANT, LAST_VARIABLE, NO_ENTRY};
use super::rows::cells_by;
use super::size::{capped, site};
use super::{Faults, mark};
use ol_tables::bytes::{byte, name, put, put_two};
use ol_tables::form::Form;
use ol_tables::heads::head;
use ol_tables::kind::NodeKind;
use ol_tables::tables::{CONSTANT_CELLS, FileRows, NO_CELL, VARIANT};

// What the expressions of a node are judged by: the file, the table by name, the rows of its nodes, how many there are, and the node's number; the types of the node's variables and of the
// constants, which stand among those plans that are written before the node's, and whether arrays are declared.
// How many nodes there are stands beside the rows here, in the clauses and in each function that has both: the rows have 32, and the file says how many of them are nodes. A count in `FileRows`
// would be written by the row walk, and each clause would still say that it is the file's. That it is at most 32 stays a clause: it is what a byte of the file says, and a row is read by it.
#[derive(Clone, Copy)]
pub(crate) struct Judge<'a> {
    pub file: &'a [u8],
    pub names: &'a [u8],
    pub rows: &'a FileRows,
    pub nodes: usize,
    pub node: usize,
    pub plans: &'a [u8],
    pub variables: usize,
    pub constants: usize,
    pub arrays: bool,
    pub ghost low: { node < 32 },
    pub ghost few: { nodes ≤ 32 },
    pub ghost short: { length file.now ≤ 32768 },
    pub ghost near: { (variables ≤ 40000) × (constants ≤ 40000) },
    pub ghost looks: { Looks (file_at file.now) node names.now plans.now variables constants },
    pub ghost scalars: { Scalars arrays (file_at file.now) node },
}

// The slot of a name that an equation defines, by its entry; 255 for a variant or no entry. It stays a number: the table has one byte for each place, with no room for an `Option`.
fn slot(e: usize) -> u8
    requires { e < 256 }
    ensures { result ≡ slot_of_entry e }
{
    if e == NO_ENTRY || e == VARIANT {
        255
    } else {
        (e - 1) as u8
    }
}

// Whether a node of kind `caller` may call one of kind `callee`.
fn may_call(caller: usize, callee: usize) -> bool
    ensures { result ≡ may_b caller callee }
{
    !NodeKind::Imported.is(callee)
        && !(NodeKind::Function.is(caller) && NodeKind::Operator.is(callee))
}

// Whether a call of node `c` with so many arguments in node `node` is faulted.
fn bad_call(rows: &FileRows, node: usize, c: usize, arguments: usize) -> bool
    requires { node < 32 }
    ensures { result ≡ bad_b (numbers rows.now) node c arguments }
{
    !(c < node
        && may_call(rows.node(node).kind, rows.node(c).kind)
        && arguments == rows.node(c).inputs)
}

// How many outputs node `c` has; 0 for an absent one.
fn outputs(rows: &FileRows, nodes: usize, c: usize) -> usize
    requires { nodes ≤ 32 }
    ensures { result ≡ outputs_b (numbers rows.now) nodes c }
{
    if c < nodes { rows.node(c).outputs } else { 0 }
}

// Whether a name with this entry may not be defined: it is an input, a constant, a variant, or
// defined before. `defined` is by entry.
fn taken(defined: &[bool; 256], inputs: usize, e: usize) -> bool
    requires { e < 256 }
    ensures { result ≡ taken_b defined.now inputs e }
{
    e <= inputs || LAST_VARIABLE < e || defined[e]
}

// Several names, and not several values.
fn lone(many: usize, values: usize) -> bool
    ensures { result ≡ lone_b many values }
{
    1 < many && values <= 1
}

// Several values, and not as many names.
fn other(many: usize, values: usize) -> bool
    ensures { result ≡ other_b many values }
{
    1 < values && values != many
}

// Stores an array's length and a cell for the Var at `at`.
fn put_cell(slots: &mut [u8], at: usize, n: usize, cell: usize)
    requires { (n < 256) × (at < 65536) }
    ensures { slots.new ≡ cell_put slots.old at n cell }
{
    put(slots, at, n as u8);
    put_two(slots, at + 1, cell);
}

// Whether the expression at `at` is an index, a literal or an iterator.
fn formed(file: &[u8], at: usize) -> bool
    requires { at < length file.now }
    ensures { result ≡ formed_b file.now at }
{
    (Form::Tuple as u8) < file[at]
}

// Notes whether something is about arrays.
fn note(arrays: &mut bool, more: bool)
    ensures { arrays.new ≡ arrays.old || more }
{
    *arrays = *arrays || more;
}

impl<'a> Judge<'a> {
    // Stores the length and the cell of name number `i` among those whose types stand from `types` on, and whose cells start at `first`, for the Var at `at`.
    fn put_name(&self, slots: &mut [u8], at: usize, types: usize, i: usize, first: usize)
        requires { (at < 65536) × (types ≤ 40000) × (i < 256) × (first ≤ 3584) }
        ensures { slots.new ≡ cell_put slots.old at (length_by self.now.arrays self.now.plans.now types i) (first + cells_by self.now.arrays self.now.plans.now types i) }
    {
        let n = if self.arrays {
            byte(self.plans, types + 2 * i + 1)
        } else {
            0
        };
        put_cell(
            slots,
            at,
            n,
            first + cells_by(self.arrays, self.plans, types, i),
        );
    }

    // Stores those of the name with the entry e.
    #[inline(always)]
    fn put_entry(&self, slots: &mut [u8], at: usize, e: usize)
        requires known { Known (file_at self.now.file.now) self.now.node self.now.plans.now self.now.variables self.now.constants e }
        requires small { (at < 65536) × (e < 256) }
        ensures { slots.new ≡ entry_put (file_at self.now.file.now) self.now.node slots.old at e }
    {
        if e == NO_ENTRY || e == VARIANT {
            put_cell(slots, at, 0, NO_CELL);
        } else if e <= LAST_VARIABLE {
            self.put_name(slots, at, self.variables, e - 1, 0);
        } else {
            self.put_name(
                slots,
                at,
                self.constants,
                e - FIRST_CONSTANT,
                CONSTANT_CELLS,
            );
        }
    }

    // Stores those of the expression at `at`, if it is a Var.
    // That a place is in the file stays a fact here and in four functions below: a type of such places is no plainer, since a walk counts with them.
    fn slot_head(&self, slots: &mut [u8], at: usize)
        requires { at < length self.now.file.now }
        ensures { slots.new ≡ slot_head self.now.file.now self.now.names.now self.now.node slots.old at }
    {
        if Form::Var.is_at(self.file, at) {
            self.put_entry(slots, at, byte(self.names, name(self.file, at + 1)));
        }
    }

    // Whether the expression at `at` is a Var of an undeclared name.
    fn unseen_at(&self, at: usize) -> bool
        requires { at < length self.now.file.now }
        ensures { result ≡ unseen_b self.now.file.now self.now.names.now at }
    {
        Form::Var.is_at(self.file, at) && byte(self.names, name(self.file, at + 1)) == NO_ENTRY
    }

    // Whether the expression at `at` is a faulted call or iterator.
    fn called_at(&self, at: usize) -> bool
        requires { at < length self.now.file.now }
        ensures { result ≡ called_b self.now.file.now (numbers self.now.rows.now) self.now.node at }
    {
        if Form::Iterator.is_at(self.file, at) {
            self.node <= byte(self.file, at + 2)
        } else {
            Form::Call.is_at(self.file, at)
                && bad_call(
                    self.rows,
                    self.node,
                    byte(self.file, at + 1),
                    byte(self.file, at + 2),
                )
        }
    }

    // How many values the expression at `at` has.
    fn arity_at(&self, at: usize) -> usize
        requires { at < length self.now.file.now }
        ensures { result ≡ arity_b self.now.file.now (numbers self.now.rows.now) self.now.nodes at }
    {
        match Form::try_from(self.file[at]) {
            Ok(Form::Tuple) => byte(self.file, at + 1),
            Ok(Form::Call) => outputs(self.rows, self.nodes, byte(self.file, at + 1)),
            _ => 1,
        }
    }

    // The Var at `at`: its cell, and 7.
    fn judge_var(&self, slots: &mut [u8], g: &mut Faults, at: usize)
        requires { at < 40000 }
        ensures { (slots.new ≡ var_put self.now.file.now self.now.names.now self.now.node slots.old at) × (g.new ≡ var_found self.now.file.now self.now.names.now g.old at) }
    {
        let e = byte(self.names, name(self.file, at + 1));
        self.put_entry(slots, at, e);
        mark(&mut g.unseen, e == NO_ENTRY, at + 1);
    }

    // The call, Tuple, index, literal or iterator at `at`: 9 and 10, and whether it is about arrays.
    fn judge_call(&self, g: &mut Faults, at: usize)
        requires { at < length self.now.file.now }
        ensures { g.new ≡ call_found self.now.file.now (numbers self.now.rows.now) self.now.nodes self.now.node g.old at }
    {
        mark(&mut g.called, self.called_at(at), at);
        mark(&mut g.shaped, 1 < self.arity_at(at), at);
        note(&mut g.arrays, formed(self.file, at));
    }

    // So many expressions, one after the other from where the walk stands. `slots` and `g` are lent side by side, here and in all functions that judge: the slots are bytes of the table,
    // and `g` is what the caller keeps. The loop is its own, and not ol_tables' walk over heads: its clause is a fold over the items of the heads, and `Steps` there tells where each head stands.
    pub(crate) fn walk(&self, slots: &mut [u8], parts: usize, g: &mut Faults)
        requires { g.old.size ≤ 65536 }
        ensures { Walked self.now.file.now self.now.names.now (numbers self.now.rows.now) self.now.nodes self.now.node parts slots.old slots.new (findings g.old) (findings g.new) }
    {
        let file = self.file;
        let mut next = g.next;
        let mut size = g.size;
        let mut left = parts;
        while 0 < left && next < file.len() && left <= file.len() {
            let h = head(file, next);
            // A chain, and no match on the form: where the arms join, the check no longer knows that `_` is none of the others.
            if Form::Var.is_at(file, next) {
                self.judge_var(slots, g, next);
            } else if Form::Call as u8 <= file[next] {
                self.judge_call(g, next);
                size = capped(size, site(file, self.rows, self.nodes, next));
            }
            left = left - 1 + h.count;
            next = h.start;
        }
        g.size = size;
        g.next = next;
    }

    // So many names that an equation defines, from where the walk stands: the first that has no entry,
    // the first that may not be defined, and each one's slot.
    fn define(
        &self,
        slots: &mut [u8],
        defined: &mut [bool; 256],
        inputs: usize,
        many: usize,
        g: &mut Faults,
    )
        requires { (many < 256) × (g.old.next ≤ 40000) }
        ensures { NamesDefined self.now.file.now self.now.names.now inputs many slots.old slots.new defined.old defined.new (findings g.old) (findings g.new) }
    {
        let at = g.next;
        for i in 0..many {
            let next = at + 2 * i;
            let e = byte(self.names, name(self.file, next));
            mark(&mut g.unseen, e == NO_ENTRY, next);
            mark(&mut g.again, taken(defined, inputs, e), next);
            put(slots, next, slot(e));
            put(defined, e, true);
        }
        g.next = at + 2 * many;
    }

    // The right side of the equation at `at`, which has so many names. The walk stands at the right side.
    fn root(&self, slots: &mut [u8], at: usize, many: usize, g: &mut Faults)
        requires { g.old.size ≤ 65536 }
        ensures { RootJudged self.now.file.now self.now.names.now (numbers self.now.rows.now) self.now.nodes self.now.node at many slots.old slots.new (findings g.old) (findings g.new) }
    {
        let next = g.next;
        if self.file.len() <= next {
            return;
        }
        let h = head(self.file, next);
        let values = self.arity_at(next);
        self.slot_head(slots, next);
        mark(&mut g.unseen, self.unseen_at(next), next + 1);
        mark(&mut g.called, self.called_at(next), next);
        mark(&mut g.shaped, lone(many, values), at);
        mark(&mut g.shaped, other(many, values), next);
        note(&mut g.arrays, formed(self.file, next));
        g.size = capped(g.size, site(self.file, self.rows, self.nodes, next));
        g.next = h.start;
        self.walk(slots, h.count, g);
    }

    // The equation where the walk stands, in a node of so many inputs.
    fn equation(&self, slots: &mut [u8], defined: &mut [bool; 256], inputs: usize, g: &mut Faults)
        requires { (g.old.next < 32768) × (g.old.size ≤ 65536) }
        ensures { EquationWalked self.now.file.now self.now.names.now (numbers self.now.rows.now) self.now.nodes self.now.node inputs slots.old slots.new defined.old defined.new (findings g.old) (findings g.new) }
    {
        let at = g.next;
        let many = byte(self.file, at);
        g.next = at + 1;
        self.define(slots, defined, inputs, many, g);
        self.root(slots, at, many, g);
    }

    // So many equations of a node of so many inputs, from where the walk stands. The node's plan is written at the front of `plan`: where each equation stands,
    // and then how many bytes the records of the equations before it have.
    pub(crate) fn equations(
        &self,
        slots: &mut [u8],
        plan: &mut [u8],
        defined: &mut [bool; 256],
        inputs: usize,
        many: usize,
        g: &mut Faults,
    )
        requires { EquationsReady self.now.file.now self.now.names.now (numbers self.now.rows.now) self.now.nodes self.now.node many g.old.next × (g.old.size ≤ 65536) × (1 ≤ g.old.size) × (4 * many ≤ length plan.old) }
        ensures { let f = file_at self.now.file.now in let n = node_of f self.now.node in EquationsJudged self.now.file.now self.now.names.now (numbers self.now.rows.now) self.now.nodes self.now.node f (seen_in f self.now.node) (bad_call f self.now.node n) inputs g.old.next n.equations slots.old slots.new defined.old defined.new (findings g.old) (findings g.new) × Planned (numbers self.now.rows.now) self.now.nodes g.old.size g.old.next n.equations 0 many plan.old plan.new }
    {
        let start = g.size;
        for i in 0..many {
            if self.file.len() <= g.next {
                return;
            }
            put_two(plan, 2 * i, g.next);
            put_two(plan, 2 * many + 2 * i, g.size - start);
            self.equation(slots, defined, inputs, g);
        }
    }
}
