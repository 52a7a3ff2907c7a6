// The equations of a node, as its plan in the table tells them: where each stands, and where its records start.
ghost use Rattle.std.specs.Prelude.{cond, ◌≡◌, ◌+◌, ◌*◌, ◌≤◌, ◌<◌, ltb, length};
ghost use Rattle.ol_tables.specs.Tables.{two_at};
ghost use Rattle.ol_frame.specs.Equations.{plan_at, is_map, arrays_count, arrays_start};

use crate::tables::row;
use ol_tables::bytes::name;
use ol_tables::form::Form;
use ol_tables::heads::{Parts, head, skip};
use ol_tables::table::SLOTS;
use ol_tables::tables::{PLACE, VARIABLES};

// Where node k's plan goes on behind the types of its variables.
pub fn plan_of(tab: &[u8], k: usize) -> usize
    requires { (4210 ≤ length tab.now) × (k < 32) }
    ensures { (result ≡ plan_at tab.now k) × (result < 9300000000000000000) }
{
    SLOTS + (tab.len() - SLOTS) / 2 + row(tab, k, PLACE) + 2 * row(tab, k, VARIABLES)
}

// Where equation i stands, by its node's plan: two bytes.
pub fn place_at(tab: &[u8], plan: usize, i: usize) -> usize
    requires { (plan < 9300000000000000000) × (i < 256) }
    ensures { result ≡ two_at tab.now (plan + 2 * i) }
{
    name(tab, plan + 2 * i)
}

// Where the records of equation i start among those of its node's n equations, which have `total` bytes; behind the last, where they end.
pub fn records_at(tab: &[u8], plan: usize, n: usize, i: usize, total: usize) -> usize
    requires { (plan < 9300000000000000000) × (n < 256) }
    ensures { result ≡ cond (ltb i n) (two_at tab.now (plan + 2 * n + 2 * i)) total }
{
    if i < n {
        name(tab, plan + 2 * n + 2 * i)
    } else {
        total
    }
}

// Whether the iterator at `at` is a map.
pub fn is_map(file: &[u8], at: usize) -> bool
    requires { at + 1 < length file.now }
    ensures { result ≡ is_map file.now at }
{
    file[at + 1] == 0
}

// The parts of the form at `at` that are evaluated one after the other: all of them, but of a fold its arrays without the seed.
pub fn arrays_of(file: &[u8], at: usize) -> Parts
    requires { at + 1 < length file.now }
    ensures { (result.count ≡ arrays_count file.now at) × (result.start ≡ arrays_start file.now at) }
{
    let h = head(file, at);
    if Form::Iterator.is_at(file, at) && file[at + 1] == 1 {
        Parts {
            count: h.count - 1,
            start: skip(file, 1, h.start),
        }
    } else {
        h
    }
}
