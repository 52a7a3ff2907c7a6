// The relay's public entry: the lengths, admission, the ordering, the start and the cycle. Each call judges the file itself.
#![tactic(auto)]

mod program; // program.rt: a file as it is loaded, and as it is admitted
mod serve; // serve.rt: the one way of every call: load, choose the tables' lengths, judge, call
mod judge; // judge.rt: faults 6 to 14 in their order
mod measuring; // measuring.rt: the lengths
mod starting; // starting.rt: the fresh state
mod cycling; // cycling.rt: a cycle of the main instance

ghost use Rattle.ol_spec.specs.Limits.{relay_loader};
ghost use Rattle.ol_spec.specs.Admission.{admission};
ghost use Rattle.ol_spec.specs.Cycle.{lengths, ordering, start, cycle};
ghost use Rattle.ol_sim.specs.Calls.{MeasuresAs, AdmitsAs, OrdersAs, StartsAs, CyclesAs};

use ol_spec::{Cycled, Fault, Lengths};
use program::Program;
use serve::serve;

// The lengths that a caller needs: of the state, of a cycle's inputs and of its values, in bytes; and how many equations a node has.
pub fn lengths(file: &[u8], node: usize) -> Result<Lengths, Fault>
    ensures { MeasuresAs (lengths relay_loader file.now node) result }
{
    serve(file, &mut |p: &Program| p.measure(node))?
}

// Whether a file is admitted: the length of its state, or its first fault. A file that is admitted has a node 0.
pub fn admission(file: &[u8]) -> Result<usize, Fault>
    ensures { AdmitsAs (admission relay_loader file.now) result }
{
    Ok(lengths(file, 0)?.state)
}

// The order in which a node's equations run: entry k of the buffer gets the file index of the
// equation that runs k-th, both from 0.
pub fn evaluation_order(file: &[u8], node: usize, buffer: &mut [usize]) -> Result<(), Fault>
    ensures { OrdersAs (ordering relay_loader file.now node buffer.old) result buffer.new }
{
    ol_order::evaluation_order(file, node, buffer)
}

// Writes the fresh state.
pub fn start(file: &[u8], state: &mut [u8]) -> Result<(), Fault>
    ensures { StartsAs (start relay_loader file.now state.old) result state.new }
{
    serve(file, &mut |p: &Program| p.start(state))?
}

// A cycle: from the old state and the inputs to the new state and the values.
pub fn cycle(file: &[u8], old: &[u8], inputs: &[u8], new: &mut [u8], values: &mut [u8]) -> Cycled
    ensures { CyclesAs (cycle relay_loader file.now old.now inputs.now new.old values.old) result new.new values.new }
{
    match serve(file, &mut |p: &Program| p.cycle(old, inputs, new, values)) {
        Ok(c) => c,
        Err(f) => Cycled::Refused(f),
    }
}
