// The types that the relay's public functions and their contracts share.
#![tactic(auto)]

pub mod type_codes; // type_codes.rt: the code of an Enum's type

// A cell's value: the flat choice of Bool, Int, both reals and Enum (a variant's name).
#[derive(Clone, Copy)]
pub enum Value {
    Bool(bool),
    Int(i64),
    Float(f64),
    Float32(f32),
    Enum(u16),
}

// Why an evaluation failed: a `pre` in a first cycle, a zero divisor or a shift count outside
// 0..63, or anything else.
#[derive(Clone, Copy, PartialEq, Eq)]
pub enum Cause {
    Cold,
    Range,
    Other,
}

// The number of a cycle that stops by this cause: document 01's.
impl From<Cause> for u8 {
    ghost use Rattle.std.specs.Prelude.{◌≡◌};
    ghost use Rattle.ol_spec.specs.Answers.{cause_number};

    ghost from_gives = { λ c n. n ≡ cause_number c };

    fn from(c: Cause) -> u8 {
        match c {
            Cause::Cold => 18,
            Cause::Range => 20,
            Cause::Other => 21,
        }
    }
}

// What an evaluation gives: a value, a failure or an overflow. Three ends of one enum, as document 01 has them, and no Result: a failure and an overflow
// behind one Err would be told apart again wherever they count (a branch not taken, an instance's record, a cycle's end), and no `?` leads from them, since
// behind a failure evaluation still passes over what is left.
#[derive(Clone, Copy)]
pub enum Outcome {
    Value(Value),
    Failure(Cause),
    Overflow,
}

// The greatest counts of a section's items, of an expression's levels (`nesting`) and of the state's bytes (`state`). They are a value that readers take, so
// that the Rust's own loader and the relay's are two values of it.
#[derive(Clone, Copy, PartialEq, Eq)]
pub struct Limits {
    pub enums: usize,
    pub variants: usize,
    pub constants: usize,
    pub nodes: usize,
    pub inputs: usize,
    pub outputs: usize,
    pub locals: usize,
    pub equations: usize,
    pub names: usize,
    pub arguments: usize,
    pub items: usize,
    pub elements: usize,
    pub arrays: usize,
    pub nesting: usize,
    pub state: usize,
}

// A fault's number, and its place. The number stays one (docs/FORMAT.md, "Faults"): the C interface and the line program answer it, and the definitions of
// reading and admission and the theorems on refusals speak of it, so an enum would be turned into its number in each clause.
#[derive(Clone, Copy, PartialEq, Eq)]
pub struct Fault {
    pub number: u8,
    pub place: usize,
}

// The lengths that a caller needs: in bytes of the state, of a cycle's inputs and of its values; and how many equations a node has.
#[derive(Clone, Copy, PartialEq, Eq)]
pub struct Lengths {
    pub state: usize,
    pub inputs: usize,
    pub values: usize,
    pub equations: usize,
}

// What a cycle answers: values, a stop (18 to 21) or a refusal (1 to 17, or 22). Three answers of one enum: a stopped cycle was begun and
// a refused one was not, so the two faults behind one Err would be told apart again by each caller.
#[derive(Clone, Copy, PartialEq, Eq)]
pub enum Cycled {
    Answered,
    Stopped(Fault),
    Refused(Fault),
}
