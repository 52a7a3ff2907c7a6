// Passing over expressions: where they end, how many bytes the records of their call sites have, and whether they contain a call.
ghost use Rattle.std.specs.Prelude.{◌≤◌, length};
ghost use Rattle.ol_tables.specs.Table.{rows_of};
ghost use Rattle.ol_frame.specs.Walk.{Passable, SkipsTo};

use crate::tables::row;
use ol_tables::form::Form;
use ol_tables::heads::{NextCall, head, next_call};
use ol_tables::tables::SIZE;

// Where what was passed over ends, the bytes of its records, and whether it contains a call. `has` guards no field, and `used` does not tell it: a call of a Function has no bytes of record.
#[derive(Clone, Copy)]
pub struct Passed {
    pub next: usize,
    pub used: usize,
    pub has: bool,
}

// Passes over `count` expressions, the first of which is at `at`, from call to call.
pub fn pass_all(file: &[u8], tab: &[u8], at: usize, level: usize, count: usize) -> Passed
    requires { Passable file.now (rows_of tab.now) level count at × (816 ≤ length tab.now) }
    ensures { SkipsTo file.now level count at result }
{
    let mut next = at;
    let mut left = count;
    let mut used: usize = 0;
    let mut has = false;
    loop {
        match next_call(file, left, next) {
            NextCall::Found(c) => {
                used += row(tab, c.callee, SIZE);
                has = true;
                next = c.at;
                left = c.left;
            }
            NextCall::End(next) => return Passed { next, used, has },
        }
    }
}

// Passes over the expression at `at`, of at most `level` levels. A literal and a Var are their heads.
pub fn pass(file: &[u8], tab: &[u8], at: usize, level: usize) -> Passed
    requires { Passable file.now (rows_of tab.now) level 1 at × (816 ≤ length tab.now) }
    ensures { SkipsTo file.now level 1 at result }
{
    match Form::at(file, at) {
        Form::Bool | Form::Int | Form::Float | Form::Char | Form::Var => Passed {
            next: head(file, at).start,
            used: 0,
            has: false,
        },
        _ => pass_all(file, tab, at, level, 1),
    }
}
