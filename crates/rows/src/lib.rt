// The comparison that the programs of the gate make: a list of what was found with a list of what was wanted.
#![tactic(auto)]

pub mod streams;

ghost use Rattle.std.specs.Prelude.{◌≡◌, ◌==◌, not, count_by, position, zip};
ghost use Rattle.rows.specs.Rows.{Compares, all_agree, first_alone};

// How many rows agree, and the index of the first that does not, if there is one.
#[derive(Clone, Copy)]
pub struct Compared {
    pub agreeing: usize,
    pub first: Option<usize>,
}

// How many rows agree.
fn agreeing(found: &[u64], wanted: &[u64]) -> usize
    ensures { result ≡ count_by (λ p. p.0 == p.1) (zip found.now wanted.now) }
{
    found.iter().zip(wanted).filter(|(f, w)| f == w).count()
}

// The index of the first row that both lists have and that does not agree.
fn first_other(found: &[u64], wanted: &[u64]) -> Option<usize>
    ensures { result ≡ position (λ p. not (p.0 == p.1)) (zip found.now wanted.now) }
{
    found.iter().zip(wanted).position(|(f, w)| f != w)
}

// The index of the first row that only one of the two lists has.
fn first_alone(found: &[u64], wanted: &[u64]) -> Option<usize>
    ensures { result ≡ first_alone found.now wanted.now }
{
    let is_there = found.len() != wanted.len();
    is_there.then_some(found.len().min(wanted.len()))
}

// Compares two lists of rows.
#[tactic(auto, using(crate::proofs::Laws::agreeing_is, crate::proofs::Laws::first_is))]
pub fn compare(found: &[u64], wanted: &[u64]) -> Compared
    ensures { Compares found.now wanted.now result }
{
    Compared {
        agreeing: agreeing(found, wanted),
        first: first_other(found, wanted).or(first_alone(found, wanted)),
    }
}

// Whether all rows agree.
#[tactic(auto, using(crate::proofs::Laws::all_agree_is))]
pub fn agrees(found: &[u64], wanted: &[u64]) -> bool
    ensures { result ≡ all_agree found.now wanted.now }
{
    found == wanted
}
