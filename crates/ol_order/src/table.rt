// The orders of all nodes of a file, as bytes: entry k * 80 + j is the index of the equation of node k
// that runs j-th.
ghost use Rattle.std.specs.Prelude.{true, ◌≡◌, ℕ, ◌*◌, ◌≤◌, ◌<◌, length, take, drop};
ghost use Rattle.std.proofs.lemmas.List.Edits.{sets};
ghost use Rattle.ol_spec.specs.Syntax.{File};
ghost use Rattle.ol_spec.specs.Limits.{relay_loader};
ghost use Rattle.ol_spec.specs.Read.{got, read_file};
ghost use Rattle.ol_tables.specs.Numbers.{numbers};
ghost use Rattle.ol_order.specs.Tables.{waited_all};
ghost use Rattle.ol_order.specs.Equations.{those, all_waited};
ghost use Rattle.ol_order.specs.Nodes.{nth_place, nth_node, OrdersAsked, Entries, OrdersTold};
ghost use Rattle.ol_order.specs.Orders.{LowNames, EquationsDone, starts_in, NodeDone, NodesStand, Planned, OrdersDone};

use crate::equations::Equations;
use crate::{no_definers, sort};
use ol_ir::project::base;
use ol_tables::bytes::name;
use ol_tables::table::{ORDERS, SLOTS};
use ol_tables::tables::{FileRows, MOST_EQUATIONS};

// Where the slots start, behind the orders and the nodes' numbers; the plans have the second half of
// the bytes from there on.
const SLOTS_FROM: usize = SLOTS - ORDERS;

// The order of the equations, with a table of N definers, and room for all definers that they wait for.
// How many there are is known at the run only, and there is no heap: this file's buffers have the most,
// and a part of each is lent. The order is made in bytes of its own, as in `order_equations`: on a ring the table's
// bytes stay.
fn order_starts<const N: usize>(
    equations: Equations,
    low: bool,
    lists: &mut [u8],
    out: &mut [u8],
) -> Result<(), usize>
    requires some { 0 < N }
    requires few { N ≤ 1024 }
    requires low_names { low ≡ true → LowNames N (those equations) }
    requires room { length (all_waited equations) ≤ length lists.old }
    requires out_len { length out.old ≡ 80 }
    ensures order { EquationsDone (those equations.entry) equations.entry.starts.now out.old out.new result }
    ensures lists { lists.new ≡ sets lists.old 0 (all_waited equations.entry) }
{
    let mut definers = no_definers::<N>();
    let count = equations.starts.len();
    let mut space = [0u8; 80];
    let order = &mut space[..count];
    sort::<N>(equations, low, &mut definers, lists, order).map_err(
        |first| equations.starts[first],
    )?;
    // By a loop, as ol_frame's `copy` is.
    let front = &mut out[..count];
    for (i, k) in order.iter().enumerate() {
        front[i] = *k;
    }
    Ok(())
}

// Where equations start, as their plan, which is written from `plan` on, tells.
fn starts_of(tab: &[u8], plan: usize, starts: &mut [usize])
    requires plan_bound { plan < 9223372036854775808 }
    ensures { starts.new ≡ starts_in tab.now plan (length starts.old) }
{
    for (i, start) in starts.iter_mut().enumerate() {
        let p = plan + 2 * i;
        *start = name(tab, p);
    }
}

// The nodes of a file that reads without fault, by the places at which they start, with the rows of
// its table. With `low` every name that an equation defines has an entry of its own among the definers.
// It is a fact of the names: no field waits for it, and two variants would have the same fields. What
// holds of the nodes is asked by each method: it tells of the table too, which each method is lent, and
// it names the file as it is read, so it is no proposition. In `∥ .. ∥₁` it would be one, and each proof would open it to name the file.
#[derive(Clone, Copy)]
struct Nodes<'f, 'p, 'r> {
    file: &'f [u8],
    enums: usize,
    places: &'p [usize],
    rows: &'r FileRows,
    low: bool,
}

impl<'f, 'p, 'r> Nodes<'f, 'p, 'r> {
    // The order of the equations of node k, with room for all definers that they wait for. It is put into its callers: measured faster.
    // Its plan says where they start; their order is written into the node's part of the table. That there is room
    // stays a clause, here and in `order_all` by the file's length, in `order_starts`, `sort` and `record_all` by the
    // definers: the number is known at the run only, and the room is lent.
    #[inline(always)]
    fn order_node<const N: usize>(
        self,
        k: usize,
        lists: &mut [u8],
        tab: &mut [u8],
    ) -> Result<(), usize>
        requires entries { Entries self N }
        requires k_in_bounds { k < length self.places.now }
        requires asked { OrdersAsked self tab.old }
        requires room { length self.file.now ≤ 3 * length lists.old }
        ensures order { NodeDone (nth_place self.entry k) (nth_node self.entry k) (k * 80) tab.old tab.new result }
        ensures lists { lists.new ≡ sets lists.old 0 (waited_all (nth_node self.entry k).equations (nth_node self.entry k).equations) }
    {
        let at = self.places[k];
        let plans = SLOTS_FROM + (tab.len() - SLOTS_FROM) / 2;
        let row = self.rows.node(k);
        let plan = plans + at + 2 * row.variables;
        let mut space = [0usize; 80];
        let starts = &mut space[..row.count];
        starts_of(tab, plan, starts);
        let equations = Equations {
            file: self.file,
            limits: base(),
            enums: self.enums,
            starts,
        };
        let from = k * MOST_EQUATIONS;
        let end = from + MOST_EQUATIONS;
        order_starts::<N>(equations, self.low, lists, &mut tab[from..end])
    }

    // The orders of all nodes, with lists of L entries and tables of N definers. It stays out of its
    // caller: a short file does not touch the long lists' stack.
    #[inline(never)]
    fn order_all<const L: usize, const N: usize>(self, tab: &mut [u8]) -> Result<(), usize>
        requires asked { OrdersAsked self tab.old }
        requires room { length self.file.now ≤ 3 * L }
        requires size { L < 65536 }
        requires entries { Entries self N }
        ensures { OrdersTold self.entry tab.old tab.new result }
    {
        let mut lists = [0u8; L];
        for k in 0..self.places.len() {
            self.order_node::<N>(k, &mut lists, tab)?;
        }
        Ok(())
    }
}

// The orders of all nodes of a file that reads without fault, and that start at these places: the
// place of the first equation that is never placed, of the first node that has one. With `low` every
// name that an equation defines is below 256 in a file of at most 256 bytes, below 1,024 in a longer one.
pub fn orders_of(
    file: &[u8],
    enums: usize,
    places: &[usize],
    rows: &FileRows,
    low: bool,
    tab: &mut [u8],
) -> Result<(), usize>
    requires nodes_stand { NodesStand file.now enums places.now low }
    requires planned { Planned file.now (numbers rows.now) tab.old }
    ensures orders_done { (f : File) (end : ℕ) → read_file file.now relay_loader ≡ got f end → OrdersDone f (take 2560 tab.old) (take 2560 tab.new) result }
    ensures kept { drop 2560 tab.new ≡ drop 2560 tab.old }
{
    let nodes = Nodes {
        file,
        enums,
        places,
        rows,
        low,
    };
    if file.len() <= 256 {
        if low {
            nodes.order_all::<86, 256>(tab)
        } else {
            nodes.order_all::<86, 1024>(tab)
        }
    } else if file.len() <= 1536 {
        nodes.order_all::<512, 1024>(tab)
    } else {
        nodes.order_all::<10923, 1024>(tab)
    }
}
