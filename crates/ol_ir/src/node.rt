// Variables, equations and nodes.
ghost use Rattle.std.proofs.lemmas.List.Edits.{sets};
ghost use Rattle.std.specs.Prelude.{◌≡◌};
ghost use Rattle.ol_spec.specs.Read.{name_r, section_r, variable_r, equation_r, node_r};
ghost use Rattle.ol_ir.specs.Nexts.{next_of, counted_of};
ghost use Rattle.ol_ir.specs.Nodes.{interface_r, equations_r};
ghost use Rattle.ol_ir.specs.Walks.{equation_places, start_places};

use super::read::{bytes, code, count, section};
use super::skip::skip_equation;
use super::{Counted, Reader};
use ol_spec::{Fault, Limits};
use ol_tables::bytes::put;

// An equation's names, or an enum's variants: from one to so many names.
pub fn names(file: &[u8], most: usize, at: usize) -> Result<usize, Fault>
    ensures { result ≡ next_of (section_r file.now 1 most (name_r file.now) at) }
{
    let n = count(file, 1, most, at)?;
    bytes(file, 2 * n.count, n.at)
}

impl Reader<'_> {
    // A variable: its name and its type.
    #[inline(always)]
    pub(crate) fn variable(&self, at: usize) -> Result<usize, Fault>
        ensures { result ≡ next_of (variable_r self.now.file.now self.now.limits.now self.now.enums at) }
    {
        let p = bytes(self.file, 2, at)?;
        self.var_ty(p)
    }

    // A section of variables.
    fn variables(&self, lo: usize, hi: usize, at: usize) -> Result<usize, Fault>
        ensures { result ≡ next_of (section_r self.now.file.now lo hi (variable_r self.now.file.now self.now.limits.now self.now.enums) at) }
    {
        section(self.file, lo, hi, at, |p| self.variable(p))
    }

    // An equation: the names that it defines, and its right side.
    fn equation(&self, at: usize) -> Result<usize, Fault>
        ensures { result ≡ next_of (equation_r self.now.file.now self.now.limits.now self.now.enums at) }
    {
        let p = names(self.file, self.limits.names, at)?;
        self.exprs(self.limits.nesting, 1, p)
    }

    // What stands in front of a node's equations: its kind, inputs, outputs and locals.
    fn interface(&self, at: usize) -> Result<usize, Fault>
        ensures { result ≡ next_of (interface_r self.now.file.now self.now.limits.now self.now.enums at) }
    {
        let p = code(self.file, 3, at)?;
        let q = self.variables(0, self.limits.inputs, p)?;
        let r = self.variables(1, self.limits.outputs, q)?;
        self.variables(0, self.limits.locals, r)
    }

    // A node.
    pub(crate) fn node(&self, at: usize) -> Result<usize, Fault>
        ensures { result ≡ next_of (node_r self.now.file.now self.now.limits.now self.now.enums at) }
    {
        let p = self.interface(at)?;
        section(self.file, 0, self.limits.equations, p, |q| self.equation(q))
    }
}

// Where so many equations start: entry k of the table gets equation k's place. `Reader::nodes` has this outline, and each of its steps may fail: one function of both would take a closure
// that never fails here.
fn equation_places(file: &[u8], count: usize, at: usize, starts: &mut [usize])
    ensures { starts.new ≡ sets starts.old 0 (equation_places count file.now at) }
{
    let mut next = at;
    for i in 0..count {
        put(starts, i, next);
        next = skip_equation(file, next);
    }
}

// The equations of the node that starts at `at`: how many there are, and where each starts.
pub fn equation_starts(
    file: &[u8],
    limits: Limits,
    enums: usize,
    at: usize,
    starts: &mut [usize],
) -> Result<Counted, Fault>
    ensures many { result ≡ counted_of (equations_r file.now limits enums at) }
    ensures places { starts.new ≡ sets starts.old 0 (start_places file.now limits enums at) }
{
    let reader = Reader {
        file,
        limits: &limits,
        enums,
    };
    let p = reader.interface(at)?;
    let n = count(file, 0, limits.equations, p)?;
    equation_places(file, n.count, n.at, starts);
    Ok(n)
}
