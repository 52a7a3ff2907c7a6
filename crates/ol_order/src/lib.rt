// The order of a node's equations: document 01, "The order".
#![tactic(auto)]

mod names; // names.rt: an equation's names
mod equations; // equations.rt: equations by their places
mod lookup; // lookup.rt: the equation that defines a name
pub mod table; // table.rt: the orders of all nodes of a file
pub mod counts; // counts.rt: how many equations a node has

ghost use Rattle.std.specs.Prelude.{List, [], map, ◌≡◌, ◌↔◌, ℕ, ◌*◌, ◌≤◌, ◌<◌, length, get_or, take, drop, All, IsTrue, false, not, position, None};
ghost use Rattle.std.proofs.Math.Option.{some};
ghost use Rattle.std.proofs.lemmas.List.Edits.{sets};
ghost use Rattle.ol_spec.specs.Syntax.{Equation};
ghost use Rattle.ol_spec.specs.Limits.{relay_loader};
ghost use Rattle.ol_spec.specs.Order.{pass, order as in_order};
ghost use Rattle.ol_spec.specs.Answers.{sorted_fault};
ghost use Rattle.ol_spec.specs.Cycle.{order_node, ordering};
ghost use Rattle.ol_order.specs.Tables.{node_at, key_of, keyed, put, put_all, put_starts, order_of};
ghost use Rattle.ol_order.specs.Names.{names_of};
ghost use Rattle.ol_order.specs.Post.{NodeReads, Blank, Waits, Listed, Waiting, State, Sorts};
ghost use Rattle.ol_order.specs.Equations.{those, all_waited};

use crate::equations::Equations;
use crate::lookup::Lookup;
use crate::names::Names;
use ol_ir::node::equation_starts;
use ol_ir::project::{base, load_file};
use ol_ir::read::count;
use ol_spec::{Fault, Limits};
use ol_tables::bytes::put;

// No name has a definer.
pub(crate) fn no_definers<const N: usize>() -> [Option<u8>; N]
    requires { N ≤ 1024 }
    ensures long { N ≡ length result }
    ensures none { (x : ℕ) → get_or result x None ≡ None }
{
    [None; N]
}

// Each of these names gets the equation's index, at its remainder by N.
fn define<const N: usize>(names: Names, index: u8, definers: &mut [Option<u8>])
    requires { 0 < N }
    ensures { definers.new ≡ put (map (key_of N) (names_of names.entry)) index definers.old }
{
    for x in names {
        put(definers, x % N, Some(index));
    }
}

// Which equation is the last that defines a name of each remainder by N. Ends where no count of
// names stands.
fn define_all<const N: usize>(
    file: &[u8],
    most: usize,
    starts: &[usize],
    definers: &mut [Option<u8>],
)
    requires entries { 0 < N }
    requires few { length starts.now < 255 }
    ensures { definers.new ≡ put_starts N file.now most 0 starts.now definers.old }
{
    for (i, at) in starts.iter().enumerate() {
        match count(file, 1, most, *at) {
            Ok(left) => define::<N>(Names { file, left }, i as u8, definers),
            Err(_) => return,
        }
    }
}

// Whether all these are placed.
fn all_placed(waits: &[u8], placed: &[bool]) -> bool
    requires { All (λ d. d < length placed.now) waits.now }
    ensures { IsTrue result ↔ All (λ d. IsTrue (get_or placed.now d false)) waits.now }
{
    waits.iter().all(|d| placed[usize::from(*d)])
}

// One pass over the equations in file order: each that waits for none is placed. Behind those placed,
// the entries of `order` stay.
fn pass(lists: &[u8], begins: &[usize], placed: &mut [bool], order: &mut [u8], done: usize) -> usize
    requires { Waiting lists.now begins.now placed.old order.old done }
    ensures placed { (qs : List Equation) → Waits qs lists.now begins.now → State qs (take done order.old) placed.old order.old done → State qs (pass qs 0 qs (take done order.old)) placed.new order.new result }
    ensures behind { drop result order.new ≡ drop result order.old }
{
    // Where the next is written: an equation that still waits writes none.
    let mut n = done;
    for k in 0..placed.len() {
        if !placed[k] && all_placed(&lists[begins[k]..begins[k + 1]], placed) {
            placed[k] = true;
            order[n] = k as u8;
            n += 1;
        }
    }
    n
}

// Passes until all are placed or one places none. Behind those placed, the entries of `order` stay.
fn passes(lists: &[u8], begins: &[usize], placed: &mut [bool], order: &mut [u8])
    requires { Waiting lists.now begins.now placed.old order.old 0 }
    ensures placed { (qs : List Equation) → Waits qs lists.now begins.now → State qs [] placed.old order.old 0 → State qs (in_order qs) placed.new order.new (length (in_order qs)) }
    ensures behind { (qs : List Equation) → Waits qs lists.now begins.now → State qs [] placed.old order.old 0 → drop (length (in_order qs)) order.new ≡ drop (length (in_order qs)) order.old }
{
    let mut done = 0;
    while done < placed.len() {
        let n = pass(lists, begins, placed, order, done);
        if n == done {
            return;
        }
        done = n;
    }
}

// The first that is not placed.
fn first_unplaced(placed: &[bool]) -> Option<usize>
    ensures { result ≡ position not placed.now }
{
    placed.iter().position(|p| !*p)
}

// Places the equations whose lists these are; an error is the first that is never placed. The buffer gets
// the order of those placed. How many there are is known at the run only, and there is no heap: this
// file's buffers have the most, and a part of each is lent.
fn place(lists: &[u8], begins: &[usize], order: &mut [u8]) -> Result<(), usize>
    requires { Listed lists.now begins.now order.old }
    ensures { (qs : List Equation) → Waits qs lists.now begins.now → Sorts qs order.old order.new result }
{
    let mut flags = [false; 80];
    let placed = &mut flags[..order.len()];
    passes(lists, begins, placed, order);
    match first_unplaced(placed) {
        Some(first) => Err(first),
        None => Ok(()),
    }
}

// Places the equations, with a table of N entries in which no name has a definer yet, and room for all
// definers that they wait for; an error is the first that is never placed. The buffer gets the order of
// those placed, the table and the lists the definers.
pub(crate) fn sort<const N: usize>(
    equations: Equations,
    low: bool,
    definers: &mut [Option<u8>],
    lists: &mut [u8],
    order: &mut [u8],
) -> Result<(), usize>
    requires entries { 0 < N }
    requires blank { Blank N (those equations) low definers.old }
    requires room { length (all_waited equations) ≤ length lists.old }
    requires order_len { length order.old ≡ length equations.starts.now }
    ensures order { Sorts (those equations.entry) order.old order.new result }
    ensures table { definers.new ≡ put_all 0 (map (keyed N) (those equations.entry)) definers.old }
    ensures lists { lists.new ≡ sets lists.old 0 (all_waited equations.entry) }
{
    define_all::<N>(
        equations.file,
        equations.limits.names,
        equations.starts,
        definers,
    );
    let lookup = Lookup::<N> {
        equations,
        low,
        definers,
    };
    let mut spans = [0usize; 81];
    let begins = &mut spans[..equations.starts.len() + 1];
    lookup.record_all(lists, begins);
    place(lists, begins, order)
}

// Copies an order, whose entries are bytes in the ordering's own work, to its caller's buffer.
fn copy(order: &[u8], buffer: &mut [usize])
    requires { length buffer.old ≡ length order.now }
    ensures { buffer.new ≡ order.now }
{
    for (i, k) in order.iter().enumerate() {
        buffer[i] = usize::from(*k);
    }
}

// The order of the equations, with lists of L entries. It is made in bytes of its own and copied at the
// end: at 11 and at 17 the buffer stays. It stays out of its caller: a short file does not touch the long
// lists' stack.
#[inline(never)]
fn order_equations<const L: usize>(equations: Equations, buffer: &mut [usize]) -> Result<(), Fault>
    requires room { length (all_waited equations) ≤ L }
    requires size { L < 65536 }
    ensures answer { result ≡ (order_of (those equations.entry) equations.entry.starts.now buffer.old).answer }
    ensures written { buffer.new ≡ (order_of (those equations.entry) equations.entry.starts.now buffer.old).buffer }
{
    let mut definers = no_definers::<1024>();
    let mut lists = [0u8; L];
    let mut space = [0u8; 80];
    let order = &mut space[..equations.starts.len()];
    sort::<1024>(equations, false, &mut definers, &mut lists, order).map_err(|first| Fault {
        number: 11,
        place: equations.starts[first],
    })?;
    if buffer.len() != order.len() {
        return Err(Fault {
            number: 17,
            place: 0,
        });
    }
    copy(order, buffer);
    Ok(())
}

// The order of the equations, with lists by the file's length.
fn order_by_length(equations: Equations, buffer: &mut [usize]) -> Result<(), Fault>
    requires room { 3 * length (all_waited equations) ≤ length equations.file.now }
    requires file_len_bound { length equations.file.now ≤ 32768 }
    ensures answer { result ≡ (order_of (those equations.entry) equations.entry.starts.now buffer.old).answer }
    ensures written { buffer.new ≡ (order_of (those equations.entry) equations.entry.starts.now buffer.old).buffer }
{
    let len = equations.file.len();
    if len <= 256 {
        order_equations::<86>(equations, buffer)
    } else if len <= 1536 {
        order_equations::<512>(equations, buffer)
    } else {
        order_equations::<10923>(equations, buffer)
    }
}

// The order of the equations of the node that starts at `at`.
fn order_node(
    file: &[u8],
    limits: Limits,
    enums: usize,
    at: usize,
    buffer: &mut [usize],
) -> Result<(), Fault>
    requires node_reads { NodeReads file.now limits enums at }
    requires file_len_bound { length file.now ≤ 32768 }
    ensures answer { result ≡ (order_node (some (at, node_at file.now limits enums at)) buffer.old).answer }
    ensures written { buffer.new ≡ (order_node (some (at, node_at file.now limits enums at)) buffer.old).buffer }
{
    let mut space = [0usize; 80];
    let counted = equation_starts(file, limits, enums, at, &mut space)?;
    let starts = &space[..counted.count];
    let equations = Equations {
        file,
        limits,
        enums,
        starts,
    };
    order_by_length(equations, buffer)
}

// The order in which a node's equations run: entry k of the buffer gets the file index of the
// equation that runs k-th, both from 0.
pub fn evaluation_order(file: &[u8], node: usize, buffer: &mut [usize]) -> Result<(), Fault>
    ensures answer { result ≡ (ordering relay_loader file.now node buffer.old).answer }
    ensures written { buffer.new ≡ (ordering relay_loader file.now node buffer.old).buffer }
    ensures told { sorted_fault result ≡ sorted_fault (ordering relay_loader file.now node buffer.old).answer }
{
    let mut nodes = [0usize; 32];
    let loaded = load_file(file, &mut nodes)?;
    if node < loaded.nodes {
        order_node(file, base(), loaded.enums, nodes[node], buffer)
    } else {
        Err(Fault {
            number: 3,
            place: 0,
        })
    }
}
