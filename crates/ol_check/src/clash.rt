// Fault 6, by a table that says of each name which sort declared it last: 0 none, an enum's number and 1, 17 a constant, a node's number and 18.
// The same walk tells the highest declared name, and whether an array is declared.
ghost use Rattle.std.specs.Prelude.{◌≡◌, map, [], ◌∷◌, ◌≤◌, ◌<◌, length};
ghost use Rattle.ol_spec.specs.Lists.{concat};
ghost use Rattle.ol_spec.specs.Places.{placed_constants, placed_nodes};
ghost use Rattle.ol_spec.specs.Admission.{constant, declared_as, declared_at, placed_constant_name, node_declares, numbered};
ghost use Rattle.ol_tables.specs.At.{file_at};
ghost use Rattle.ol_tables.specs.Tables.{node_of};
ghost use Rattle.ol_tables.specs.Numbers.{numbers};
ghost use Rattle.ol_check.specs.Arrays.{constant_array, node_arrays};
ghost use Rattle.ol_check.specs.Spans.{named_at, names_from};
ghost use Rattle.ol_check.specs.NodesJudged.{place_in, NodeReady, RowsReady};
ghost use Rattle.ol_check.specs.Clashing.{sort_of, meets, typed_array, Walks, VariablesSorted, enums_from, ConstantsAt, DeclaredReady, FileSorted};

use super::mark;
use super::rows::{Sections, is_array, names_end, variable_end};
use ol_tables::bytes::{byte, name, put};
use ol_tables::heads::skip;
use ol_tables::tables::FileRows;

// The sort of a constant; below it are the enums', and above it the nodes'.
// An enum of sorts is no plainer: the table holds the bytes, and `clashes` compares them.
const CONSTANT: usize = 17;

// The place of the first clash so far, the highest name so far, and whether an array was declared so far.
#[derive(Clone, Copy, Default)]
pub struct Sorting {
    pub found: Option<usize>,
    pub highest: usize,
    pub arrays: bool,
}

// Whether a declaration of sort `sort` clashes with the last one of its name.
fn clashes(last: usize, sort: usize) -> bool
    ensures { result ≡ meets last sort }
{
    last != 0 && (last == sort || (last <= CONSTANT && CONSTANT <= sort))
}

// A walk over declarations: the sort that declared each name last, the first clash, the highest name and whether an array was declared.
// `file` is lent to each method and is no field: the methods change the walk, and each clause would have to tell that the field stays.
#[derive(Drop)]
pub(crate) struct Sorter<'a> {
    sorts: &'a mut [u8],
    marks: Sorting,
}

impl Sorter<'_> {
    // The name at `at`, declared as the sort.
    fn name(&mut self, file: &[u8], sort: usize, at: usize)
        requires { (0 < sort) × (sort < 256) × (at < 65536) }
        ensures { Walks (declared_at (sort_of sort) (named_at file.now at) ∷ []) [] self.old self.new }
    {
        let x = name(file, at);
        let sorts = &mut *self.sorts;
        let clashed = clashes(byte(sorts, x), sort);
        put(sorts, x, sort as u8);
        mark(&mut self.marks.found, clashed, at);
        self.marks.highest = self.marks.highest.max(x);
    }

    // The name of the variable or constant at `at`, declared as the sort.
    fn variable(&mut self, file: &[u8], sort: usize, at: usize)
        requires { (0 < sort) × (sort < 256) × (at ≤ 45000) }
        ensures { Walks (declared_at (sort_of sort) (named_at file.now at) ∷ []) (typed_array file.now at ∷ []) self.old self.new }
    {
        self.name(file, sort, at);
        self.marks.arrays = self.marks.arrays || is_array(file, at + 2);
    }

    // So many names from `at` on. A count, and no iterator as ol_order's `Names`, here and in three walks over names: that one ends where the file's end cuts a name off, and here
    // the file was read, so the count alone ends the walk.
    fn names(&mut self, file: &[u8], sort: usize, count: usize, at: usize)
        requires { (0 < sort) × (sort < 256) × (count < 256) × (at ≤ 40000) }
        ensures { Walks (declared_as (sort_of sort) (names_from file.now count at)) [] self.old self.new }
    {
        for i in 0..count {
            self.name(file, sort, at + 2 * i);
        }
    }

    // So many variables from `at` on; where they end is answered.
    // `each_variable` does not serve here: it lends a table of bytes to a closure that changes nothing else. One that changes what it captured would
    // have to be shown callable again after each call, by each caller; and what is lent can't be generic, since a slice is never a type argument.
    // An iterator with where the variables end as a field would serve: a struct, its `next` and a list of places in specs/, for a loop of two lines.
    fn variables(&mut self, file: &[u8], sort: usize, count: usize, at: usize) -> usize
        requires { (0 < sort) × (sort < 256) × (count < 256) × (at ≤ 40000) }
        ensures { VariablesSorted file.now sort count at self.old self.new result }
    {
        let mut next = at;
        for _ in 0..count {
            self.variable(file, sort, next);
            next = variable_end(file, next);
        }
        next
    }

    // The variants of so many enums from `at` on.
    fn enums(&mut self, file: &[u8], count: usize, at: usize)
        requires { (count ≤ 16) × (at ≤ 20000) }
        ensures { Walks (enums_from file.now 0 count at) [] self.old self.new }
    {
        let mut next = at;
        for e in 0..count {
            let many = byte(file, next);
            self.names(file, e + 1, many, next + 1);
            next = names_end(file, next);
        }
    }

    // The file's constants, so many from `at` on.
    fn constants(&mut self, file: &[u8], count: usize, at: usize)
        requires { ConstantsAt file.now count at }
        ensures { Walks (declared_as constant (map placed_constant_name (placed_constants (file_at file.now)))) (map constant_array (file_at file.now).constants) self.old self.new }
    {
        let mut next = at;
        for _ in 0..count {
            self.variable(file, CONSTANT, next);
            next = skip(file, 1, variable_end(file, next));
        }
    }

    // The variables of node `k`.
    fn node(&mut self, file: &[u8], rows: &FileRows, k: usize)
        requires { NodeReady file.now (numbers rows.now) (length (file_at file.now).nodes) k }
        ensures { Walks (node_declares (k, (place_in (file_at file.now) k, node_of (file_at file.now) k))) (node_arrays (node_of (file_at file.now) k)) self.old self.new }
    {
        let at = rows.node(k).place;
        let inputs = byte(file, at + 1);
        let sort = CONSTANT + 1 + k;
        let o = self.variables(file, sort, inputs, at + 2);
        let outputs = byte(file, o);
        let l = self.variables(file, sort, outputs, o + 1);
        let locals = byte(file, l);
        self.variables(file, sort, locals, l + 1);
    }

    // The variables of all nodes.
    fn nodes(&mut self, file: &[u8], rows: &FileRows, nodes: usize)
        requires { RowsReady file.now (numbers rows.now) nodes }
        ensures { Walks (concat (map node_declares (numbered 0 (placed_nodes (file_at file.now))))) (concat (map node_arrays (file_at file.now).nodes)) self.old self.new }
    {
        for k in 0..nodes {
            self.node(file, rows, k);
        }
    }
}

// Every declared name of a file that reads without fault: the first clash, which is fault 6 where
// the table is 0 everywhere and longer than every name, the highest of them, and whether one of them is an array's.
pub fn sort_file(file: &[u8], rows: &FileRows, sections: Sections, sorts: &mut [u8]) -> Sorting
    requires { DeclaredReady file.now (numbers rows.now) sections }
    ensures { FileSorted file.now sorts.old sorts.new result }
{
    let c = sections.constants;
    let n = sections.nodes;
    let mut sorter = Sorter {
        sorts,
        marks: Sorting::default(),
    };
    sorter.enums(file, byte(file, 1), 2);
    sorter.constants(file, byte(file, c), c + 1);
    sorter.nodes(file, rows, byte(file, n));
    sorter.marks
}
