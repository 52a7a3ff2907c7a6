// The public entry for C: include/ol_sim.h. The number is the result, 0 where there is no fault; the place goes through a pointer.
#![tactic(auto)]

ghost use Rattle.std.specs.Prelude.{◌≡◌};
ghost use Rattle.ol_spec.specs.Limits.{relay_loader};
ghost use Rattle.ol_spec.specs.Admission.{admission};
ghost use Rattle.ol_spec.specs.Answers.{cycled_fault};
ghost use Rattle.ol_spec.specs.Cycle.{lengths, ordering, start, cycle};
ghost use Rattle.ol_sim_c.specs.Told.{fault_of, Tells, Measures, Admits, Orders, Starts, Cycles};

use ol_spec::{Cycled, Fault};

// What C is told where there is none: in ol_spec's types that is `Ok`, and only what goes out as a number has a 0 for it.
const NO_FAULT: Fault = Fault {
    number: 0,
    place: 0,
};

// The fault that is answered, or none. It stands here and not in ol_spec: its number 0 is of the interface for C.
fn fault_of<T: Copy>(r: Result<T, Fault>) -> Fault
    ensures { result ≡ fault_of r }
{
    match r {
        Ok(_) => NO_FAULT,
        Err(f) => f,
    }
}

fn cycled_fault(c: Cycled) -> Fault
    ensures { result ≡ cycled_fault c }
{
    match c {
        Cycled::Answered => NO_FAULT,
        Cycled::Stopped(f) | Cycled::Refused(f) => f,
    }
}

// The number, with the place written.
fn tell(f: Fault, place: &mut usize) -> u8
    ensures { Tells f result place.new }
{
    *place = f.place;
    f.number
}

// The lengths that a caller needs, with the number of a node whose equations are counted. Of a refusal only the place is written.
#[unsafe(no_mangle)]
pub extern "C" fn ol_sim_lengths(
    file: &[u8],
    node: usize,
    place: &mut usize,
    state: &mut usize,
    inputs: &mut usize,
    values: &mut usize,
    equations: &mut usize,
) -> u8
    ensures { Measures (lengths relay_loader file.now node) (record { state = state.old; inputs = inputs.old; values = values.old; equations = equations.old }) result place.new (record { state = state.new; inputs = inputs.new; values = values.new; equations = equations.new }) }
{
    match ol_sim::lengths(file, node) {
        Ok(l) => {
            *state = l.state;
            *inputs = l.inputs;
            *values = l.values;
            *equations = l.equations;
            tell(NO_FAULT, place)
        }
        Err(f) => tell(f, place),
    }
}

// Whether a file is admitted, with the length of its state; that of a file that is refused stays as it was.
#[unsafe(no_mangle)]
pub extern "C" fn ol_sim_admit(file: &[u8], place: &mut usize, size: &mut usize) -> u8
    ensures { Admits (admission relay_loader file.now) size.old result place.new size.new }
{
    let v = ol_sim::admission(file);
    *size = v.unwrap_or(*size);
    tell(fault_of(v), place)
}

// The order in which a node's equations run.
#[unsafe(no_mangle)]
pub extern "C" fn ol_sim_order(
    file: &[u8],
    node: usize,
    buffer: &mut [usize],
    place: &mut usize,
) -> u8
    ensures { Orders (ordering relay_loader file.now node buffer.old) result place.new buffer.new }
{
    let s = ol_sim::evaluation_order(file, node, buffer);
    tell(fault_of(s), place)
}

// Writes the fresh state.
#[unsafe(no_mangle)]
pub extern "C" fn ol_sim_start(file: &[u8], state: &mut [u8], place: &mut usize) -> u8
    ensures { Starts (start relay_loader file.now state.old) result place.new state.new }
{
    let s = ol_sim::start(file, state);
    tell(fault_of(s), place)
}

// A cycle: from the old state and the inputs to the new state and the values.
#[unsafe(no_mangle)]
pub extern "C" fn ol_sim_cycle(
    file: &[u8],
    old: &[u8],
    inputs: &[u8],
    new: &mut [u8],
    values: &mut [u8],
    place: &mut usize,
) -> u8
    ensures { Cycles (cycle relay_loader file.now old.now inputs.now new.old values.old) result place.new new.new values.new }
{
    let c = ol_sim::cycle(file, old, inputs, new, values);
    tell(cycled_fault(c), place)
}
