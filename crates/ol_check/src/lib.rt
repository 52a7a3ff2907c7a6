// An inner part of the runtime: admission's faults 6 to 10, 13 and 14, and the tables of a file that reads without fault.
#![tactic(auto)]

pub mod rows; // rows.rt: the rows of the nodes, the first variants and the types
pub mod clash; // clash.rt: fault 6, and the highest declared name
mod judge; // judge.rt: faults 7 to 10, and the slots
mod names; // names.rt: the table by name
mod nodes; // nodes.rt: faults 7 to 10 of the nodes
mod constants; // constants.rt: faults 7, 9 and 10 of the constants
pub mod file; // file.rt: faults 7 to 10 of a whole file
pub mod size; // size.rt: faults 13 and 14, and the lengths of records

ghost use Rattle.std.specs.Prelude.{◌≡◌};
ghost use Rattle.ol_check.specs.Founds.{marked};

// The first fault of each number, whether an array is declared or an index, a literal or an iterator was met, the bytes of an instance of the last node, and where the walk ended.
// That `size` is at most 65536 is no ghost field: each value of this type in specs/ would need a proof of it beside it.
#[derive(Clone, Copy, Default)]
pub struct Faults {
    pub unseen: Option<usize>,
    pub again: Option<usize>,
    pub called: Option<usize>,
    pub shaped: Option<usize>,
    pub arrays: bool,
    pub size: usize,
    pub next: usize,
}

// Notes the place `at`, if it is faulted and none was noted before.
pub(crate) fn mark(place: &mut Option<usize>, faulted: bool, at: usize)
    ensures { place.new ≡ marked place.old faulted at }
{
    if faulted && place.is_none() {
        *place = Some(at);
    }
}
