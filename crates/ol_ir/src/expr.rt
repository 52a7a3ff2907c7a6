// Expressions: operator first, the parts directly behind it.
ghost use Rattle.std.specs.Prelude.{◌≡◌, ℕ, ◌<◌, IfOk, MatchResult, length, get_or};
ghost use Rattle.ol_spec.specs.Read.{many_exprs, expr_r, coded, expr_codes, fault};
ghost use Rattle.ol_spec.specs.declared.Limits.{Limits};
ghost use Rattle.ol_tables.specs.FormCodes.{code_of_form};
ghost use Rattle.ol_ir.specs.Nexts.{next_of, counted_of};
ghost use Rattle.ol_ir.specs.Heads.{head_r, call_head, iterator_head};
ghost use Rattle.ol_ir.specs.Scans.{scan_at};

use super::read::{bytes, code, count, refused};
use super::types::ty;
use super::{Counted, Reader, Scan};
use ol_spec::Fault;
use ol_tables::bytes::{byte, name};
use ol_tables::form::Form;
use ol_tables::heads;

// The form of the expression at `at`, by its code.
fn form_at(file: &[u8], at: usize) -> Result<Form, Fault>
    ensures { MatchResult result (λ form. (at < length file.now) × (get_or file.now at 0 ≡ code_of_form form)) (λ f. coded file.now expr_codes at ≡ fault f.number f.place) }
{
    if file.len() <= at {
        return refused(2, file.len());
    }
    match Form::try_from(file[at]) {
        Ok(form) => Ok(form),
        Err(_) => refused(3, at),
    }
}

// An expression where no level is left: at one byte fault 3 before fault 5.
fn deep(file: &[u8], at: usize) -> Result<usize, Fault>
    ensures { (l : Limits) (enums : ℕ) → result ≡ next_of (expr_r file.now l enums 0 at) }
{
    code(file, 16, at)?;
    refused(5, at)
}

impl Reader<'_> {
    // A node's number and a count up to `most`: a call's and its arguments', or an iterator's and its arrays'.
    fn call(&self, most: usize, at: usize) -> Result<Counted, Fault>
        ensures is { result ≡ counted_of (call_head self.now.file.now most at) }
        ensures few { IfOk result (λ n. n.count < 256) }
    {
        let p = bytes(self.file, 1, at)?;
        count(self.file, 0, most, p)
    }

    // An iterator's kind, its node's number and its count of arrays. A fold has one part more, its seed.
    fn iterator(&self, at: usize) -> Result<Counted, Fault>
        ensures { result ≡ counted_of (iterator_head self.now.file.now self.now.limits.now.arrays at) }
    {
        let p = code(self.file, 2, at)?;
        let arrays = self.call(self.limits.arrays, p)?;
        if byte(self.file, at) == 1 {
            Ok(Counted {
                count: arrays.count + 1,
                at: arrays.at,
            })
        } else {
            Ok(arrays)
        }
    }

    // An expression's head, and how many parts follow it.
    fn head(&self, at: usize) -> Result<Counted, Fault>
        ensures { result ≡ counted_of (head_r self.now.file.now self.now.limits.now self.now.enums at) }
    {
        let form = form_at(self.file, at)?;
        let p = at + 1;
        let (parts, start) = match form {
            Form::Bool => (0, code(self.file, 2, p)?),
            Form::Int | Form::Float => (0, bytes(self.file, 8, p)?),
            Form::Char => (0, bytes(self.file, 1, p)?),
            Form::Var => (0, bytes(self.file, 2, p)?),
            Form::Unary => (1, code(self.file, 2, p)?),
            Form::Binary => (2, code(self.file, 20, p)?),
            Form::If => (3, p),
            Form::Pre => (1, p),
            Form::Arrow => (2, p),
            Form::Cast => (1, ty(self.file, self.enums, p)?),
            Form::Call => return self.call(self.limits.arguments, p),
            Form::Tuple => return count(self.file, 2, self.limits.items, p),
            Form::Index => (2, p),
            Form::Literal => return count(self.file, 1, self.limits.elements, p),
            Form::Iterator => return self.iterator(p),
        };
        Ok(Counted {
            count: parts,
            at: start,
        })
    }

    // So many expressions of at most `level` levels, one after the other. The parts of the last one
    // are read in its place. No count of an index: each head adds its parts to what is left.
    pub(crate) fn exprs(&self, level: usize, count: usize, at: usize) -> Result<usize, Fault>
        ensures { result ≡ next_of (many_exprs count (expr_r self.now.file.now self.now.limits.now self.now.enums level) at) }
    {
        let mut next = at;
        let mut left = count;
        let mut depth = level;
        while 0 < left {
            left -= 1;
            if depth == 0 {
                return deep(self.file, next);
            }
            let h = self.head(next)?;
            if h.count == 0 {
                next = h.at;
            } else if left == 0 {
                next = h.at;
                left = h.count;
                depth -= 1;
            } else {
                next = self.exprs(depth - 1, h.count, h.at)?;
            }
        }
        Ok(next)
    }
}

// What a scan for reads finds at an expression: a Var's name, nothing under Pre, the parts of any
// other.
pub fn scan(file: &[u8], at: usize) -> Scan
    ensures is { result ≡ scan_at file.now at }
    ensures small { (x q : ℕ) → result ≡ Scan.Name x q → x < 65536 }
{
    if file.len() <= at {
        return Scan::Parts(0, at);
    }
    match Form::at(file, at) {
        Form::Var => Scan::Name(name(file, at + 1), at + 3),
        Form::Pre => Scan::Parts(0, heads::skip(file, 1, at + 1)),
        _ => {
            let h = heads::head(file, at);
            Scan::Parts(h.count, h.start)
        }
    }
}
