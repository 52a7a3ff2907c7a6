// Equations, passed over.
ghost use Rattle.std.specs.Prelude.{◌≡◌};
ghost use Rattle.ol_ir.specs.Walks.{skip_equation_at};

use ol_tables::heads::skip;

// Where the equation at `at` ends.
pub(crate) fn skip_equation(file: &[u8], at: usize) -> usize
    ensures { result ≡ skip_equation_at file.now at }
{
    if at < file.len() {
        let n = usize::from(file[at]);
        skip(file, 1, at + 1 + 2 * n)
    } else {
        at
    }
}
