// Expressions, head by head: an expression is its head and its parts directly behind it.
ghost use Rattle.std.specs.Prelude.{◌≡◌, ◌<◌, ◌≤◌, length};
ghost use Rattle.ol_tables.specs.Heads.{ty_size_at, scalar_size_at, iterator_parts_at};
ghost use Rattle.ol_tables.specs.Walks.{HeadOf, Steps, skip_at, Calls};

use super::bytes::byte;
use super::form::Form;
use ol_spec::type_codes::{ARRAY, ENUM};

// How many parts an expression has, and where they start.
#[derive(Clone, Copy)]
pub struct Parts {
    pub count: usize,
    pub start: usize,
}

// How many bytes the scalar type at `at` has.
fn scalar_size(file: &[u8], at: usize) -> usize
    ensures { result ≡ scalar_size_at file.now at }
{
    if byte(file, at) == usize::from(ENUM) {
        2
    } else {
        1
    }
}

// How many bytes the type at `at` has: an array's are its code, its length and its elements' type.
pub fn ty_size(file: &[u8], at: usize) -> usize
    ensures { result ≡ ty_size_at file.now at }
{
    if byte(file, at) == usize::from(ARRAY) {
        2 + scalar_size(file, at + 2)
    } else {
        scalar_size(file, at)
    }
}

// How many parts the iterator at `at` has: its arrays, and a fold its seed before them.
#[inline(never)]
fn iterator_parts(file: &[u8], at: usize) -> usize
    requires { at < length file.now }
    ensures is { result ≡ iterator_parts_at file.now at }
    ensures few { result ≤ 256 }
{
    let arrays = byte(file, at + 3);
    if byte(file, at + 1) == 1 {
        arrays + 1
    } else {
        arrays
    }
}

// The head of the expression at `at`, in the file. The numbers are those of parts_table and sizes_table
// (specs/Heads).
#[inline(always)]
fn head_inside(file: &[u8], at: usize) -> Parts
    requires { at < length file.now }
    ensures { HeadOf file.now at result }
{
    let (count, start) = match Form::at(file, at) {
        Form::Bool | Form::Char => (0, at + 2),
        Form::Int | Form::Float => (0, at + 9),
        Form::Var => (0, at + 3),
        Form::Unary => (1, at + 2),
        Form::Binary => (2, at + 2),
        Form::If => (3, at + 1),
        Form::Pre => (1, at + 1),
        Form::Arrow => (2, at + 1),
        Form::Cast => (1, at + 1 + ty_size(file, at + 1)),
        Form::Call => (byte(file, at + 2), at + 3),
        Form::Tuple | Form::Literal => (byte(file, at + 1), at + 2),
        Form::Index => (2, at + 1),
        Form::Iterator => (iterator_parts(file, at), at + 4),
    };
    Parts { count, start }
}

// The head of the expression at `at`; where the file ends, no part and no byte.
#[inline(always)]
pub fn head(file: &[u8], at: usize) -> Parts
    ensures { HeadOf file.now at result }
{
    if at < file.len() {
        head_inside(file, at)
    } else {
        Parts {
            count: 0,
            start: at,
        }
    }
}

// A walk over expressions, head by head: where the next head stands, and how many expressions are left there. No Iterator: its clause (`YieldsFirst`) tells the
// items, and what is asked for here is where the walk stands after a step.
#[derive(Drop)]
struct Heads<'f> {
    file: &'f [u8],
    at: usize,
    left: usize,
}

impl<'f> Heads<'f> {
    // Passes over a head, and answers its place. None where no expression is left, the file ends, or more are left than it has bytes.
    fn step(&mut self) -> Option<usize>
        ensures { Steps self.old self.new result }
    {
        if self.left == 0 || self.file.len() <= self.at || self.file.len() < self.left {
            return None;
        }
        let here = self.at;
        let h = head(self.file, here);
        self.left = self.left - 1 + h.count;
        self.at = h.start;
        Some(here)
    }
}

// Where the expressions end that stand at `at`, so many one after the other. No count: each head adds its parts to what is left.
pub fn skip(file: &[u8], parts: usize, at: usize) -> usize
    ensures { result ≡ skip_at file.now parts at }
{
    let mut heads = Heads {
        file,
        at,
        left: parts,
    };
    while let Some(_) = heads.step() {}
    heads.at
}

// A call: its callee, and what is left behind its head: the place and how many expressions.
#[derive(Clone, Copy)]
pub struct Call {
    pub callee: usize,
    pub at: usize,
    pub left: usize,
}

// What looking for the next call finds: a call, or where the expressions end. No Result: that the expressions end is no failure, and where they end is what the
// caller goes on from.
#[derive(Clone, Copy)]
pub enum NextCall {
    Found(Call),
    End(usize),
}

// Looks for the next call among the expressions that stand at `at`, so many one after the other.
pub fn next_call(file: &[u8], parts: usize, at: usize) -> NextCall
    ensures { Calls file.now parts at result }
{
    let mut heads = Heads {
        file,
        at,
        left: parts,
    };
    while let Some(here) = heads.step() {
        if Form::Call.is_at(file, here) {
            return NextCall::Found(Call {
                callee: byte(file, here + 1),
                at: heads.at,
                left: heads.left,
            });
        }
    }
    NextCall::End(heads.at)
}
