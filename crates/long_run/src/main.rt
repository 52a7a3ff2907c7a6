// A million cycles of the counter and of the feeder file, each on the state that the one before it left. make.py says what the standard input holds.
// Free are which bytes a read gives and whether a write takes them: `tell` and `main` promise nothing of it.
#![tactic(auto)]

ghost use Rattle.std.specs.Prelude.{◌≡◌, ◌≤◌, length};
ghost use Rattle.long_run.specs.Runs.{none, Stepped, Stands, stand, after, run_of, Ran};

use ol_spec::Cycled;
use relay_text::answers::say_answered;
use rows::streams::Streams;

// So many cycles are made in pairs, with the other inputs after each thousand.
const PAIRS: usize = 500_000;

const PHASE: usize = 1_000;

// Said where the input ends too early.
const CUT: &[u8] = b"the input is cut off\n";

// What was counted: the cycles that were answered, and those that left the fresh state again.
#[derive(Clone, Copy, Default)]
struct Tally {
    answered: u64,
    fresh: u64,
}

// A cycle, counted.
fn step(
    t: Tally,
    file: &[u8],
    fresh: &[u8],
    old: &[u8],
    inputs: &[u8],
    new: &mut [u8],
    values: &mut [u8],
) -> Tally
    ensures { Stepped file.now fresh.now old.now inputs.now new.old values.old t result new.new values.new }
{
    let c = ol_sim::cycle(file, old, inputs, new, values);
    let is_answered = matches!(c, Cycled::Answered);
    let is_fresh = &*new == fresh;
    Tally {
        answered: t.answered.wrapping_add(u64::from(is_answered)),
        fresh: t.fresh.wrapping_add(u64::from(is_fresh)),
    }
}

// All cycles, in pairs: from a to b, and back. The inputs change after each phase.
fn run(
    file: &[u8],
    fresh: &[u8],
    first: &[u8],
    second: &[u8],
    a: &mut [u8],
    b: &mut [u8],
    values: &mut [u8],
) -> Tally
    ensures { Stands (after file.now fresh.now first.now second.now 500000 (stand none a.old b.old values.old)) result a.new b.new values.new }
{
    let mut t = Tally::default();
    for i in 0..PAIRS {
        let inputs = if i / PHASE % 2 == 0 { first } else { second };
        t = step(t, file, fresh, a, inputs, b, values);
        t = step(t, file, fresh, b, inputs, a, values);
    }
    t
}

// What was counted, and the last values and state, as the oracle's line has them.
fn tell(streams: Streams, t: Tally, values: &[u8], state: &[u8])
    requires { (length values.now ≤ 1008) × (length state.now ≤ 1008) }
{
    streams.write_decimal(t.answered);
    streams.write_all(b" answered; the fresh state again ");
    streams.write_decimal(t.fresh);
    streams.write_all(b" times\n");
    let mut out = io::buffer();
    let n = say_answered(&mut out, values, state);
    let k = relay_text::within(n, &out);
    streams.write_all(&out[..k]);
}

// Starts a file twice, once for the state to compare with, makes all cycles and tells what was counted.
fn run_file(
    streams: Streams,
    file: &[u8],
    first: &[u8],
    second: &[u8],
    fresh: &mut [u8],
    a: &mut [u8],
    b: &mut [u8],
    values: &mut [u8],
) -> Tally
    requires { (length values.old ≤ 1008) × (length a.old ≤ 1008) }
    ensures { result ≡ run_of file.now first.now second.now fresh.old a.old b.old values.old }
{
    if ol_sim::start(file, fresh).is_err() || ol_sim::start(file, a).is_err() {
        return Tally::default();
    }
    let t = run(file, fresh, first, second, a, b, values);
    tell(streams, t, values, a);
    t
}

// Runs the next file of the input, with two lists of inputs.
fn run_next<const FILE: usize, const INPUTS: usize, const STATE: usize, const VALUES: usize>(
    streams: Streams,
) -> Tally
    requires { (FILE ≤ 1008) × (INPUTS ≤ 1008) × (STATE ≤ 1008) × (VALUES ≤ 1008) }
    ensures { Ran result }
{
    let file = streams.next::<FILE>(CUT);
    let first = streams.next::<INPUTS>(CUT);
    let second = streams.next::<INPUTS>(CUT);
    let mut fresh = [0; STATE];
    let mut a = [0; STATE];
    let mut b = [0; STATE];
    let mut values = [0; VALUES];
    run_file(
        streams,
        &file,
        &first,
        &second,
        &mut fresh,
        &mut a,
        &mut b,
        &mut values,
    )
}

// The counter, which has no inputs, and the feeder file.
fn main(rt: HostRuntime) {
    let streams = Streams {
        input: rt.stdin(),
        output: rt.stdout(),
    };
    run_next::<40, 0, 10, 9>(streams);
    run_next::<795, 144, 711, 414>(streams);
    streams.tell_left(b"bytes are left behind the inputs\n");
}
