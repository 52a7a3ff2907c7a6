// Types.
ghost use Rattle.std.specs.Prelude.{◌≡◌};
ghost use Rattle.ol_spec.specs.Read.{ty_r, var_ty_r};
ghost use Rattle.ol_spec.specs.declared.Limits.{Limits};
ghost use Rattle.ol_ir.specs.Nexts.{next_of};

use super::Reader;
use super::read::{byte, code, count, refused};
use ol_spec::Fault;
use ol_spec::type_codes::{ARRAY, ENUM};
use std::cmp::Ordering;

// A scalar type: its code, and an enum's number.
pub(crate) fn ty(file: &[u8], enums: usize, at: usize) -> Result<usize, Fault>
    ensures { (l : Limits) → result ≡ next_of (ty_r file.now l enums at) }
{
    match byte(file, at)?.cmp(&usize::from(ENUM)) {
        Ordering::Less => Ok(at + 1),
        Ordering::Equal => code(file, enums, at + 1),
        Ordering::Greater => refused(3, at),
    }
}

impl Reader<'_> {
    // A variable's or a constant's type: a scalar type, or an array's length and the type of its elements.
    #[inline(always)]
    pub(crate) fn var_ty(&self, at: usize) -> Result<usize, Fault>
        ensures { result ≡ next_of (var_ty_r self.now.file.now self.now.limits.now self.now.enums at) }
    {
        if byte(self.file, at)? == usize::from(ARRAY) {
            let length = count(self.file, 1, self.limits.elements, at + 1)?;
            ty(self.file, self.enums, length.at)
        } else {
            ty(self.file, self.enums, at)
        }
    }
}
