// Equations of a file, by their places.
ghost use Rattle.std.specs.Prelude.{◌≡◌, ◌≤◌, length, take};
ghost use Rattle.ol_spec.specs.Lists.{member};
ghost use Rattle.ol_order.specs.Tables.{defined_at};
ghost use Rattle.ol_order.specs.Names.{names_of};
ghost use Rattle.ol_order.specs.Post.{Readable};

use crate::names::Names;
use ol_ir::read::count;
use ol_spec::Limits;

// The equations that start at these places. The places are offsets in the file, which fit no byte however
// few equations there are: behind a first equation of 300 bytes the second starts above 255. An equation's
// place in the sequence, its index, does fit one: there are fewer than 255.
#[derive(Clone, Copy)]
pub(crate) struct Equations<'f, 's> {
    pub(crate) file: &'f [u8],
    pub(crate) limits: Limits,
    pub(crate) enums: usize,
    pub(crate) starts: &'s [usize],
    ghost readable: { Readable file.now limits enums starts.now },
}

// Whether the name is one of these.
fn among(mut names: Names, x: usize) -> bool
    ensures { result ≡ member x (names_of names.entry) }
{
    names.any(|y| x == y)
}

// Whether the equation that starts at `at` defines the name.
fn defines(file: &[u8], most: usize, at: usize, x: usize) -> bool
    ensures { result ≡ defined_at file.now most at x }
{
    count(file, 1, most, at).is_ok_and(|left| among(Names { file, left }, x))
}

impl<'f, 's> Equations<'f, 's> {
    ghost use Rattle.ol_spec.specs.Order.{definer};
    ghost use Rattle.ol_order.specs.Tables.{as_option};
    ghost use Rattle.ol_order.specs.Equations.{those};

    // The last of the first n equations that defines the name.
    pub(crate) fn search(self, n: usize, x: usize) -> Option<usize>
        requires { n ≤ length self.starts.now }
        ensures { result ≡ as_option (definer (take n (those self.entry)) x) }
    {
        self.starts[..n]
            .iter()
            .rposition(|at| defines(self.file, self.limits.names, *at, x))
    }
}
