// How many equations a node has.
ghost use Rattle.std.specs.Prelude.{◌≡◌};
ghost use Rattle.ol_spec.specs.Limits.{relay_loader};
ghost use Rattle.ol_spec.specs.Read.{read_file};
ghost use Rattle.ol_order.specs.Counts.{equations_of};

use ol_ir::node::equation_starts;
use ol_ir::project::{base, load_file};

// How many equations a node of a file has; 0 where the file does not read or has no such node, and no
// error: it is public, and could not fail. It asks nothing else of the file, as the ordering does.
pub fn equation_count(file: &[u8], node: usize) -> usize
    ensures { result ≡ equations_of (read_file file.now relay_loader) node }
{
    // How many nodes there are is known at the run only: the array has the most.
    let mut nodes = [0usize; 32];
    let Ok(loaded) = load_file(file, &mut nodes) else {
        return 0;
    };
    if loaded.nodes <= node {
        return 0;
    }
    equation_starts(file, base(), loaded.enums, nodes[node], &mut []).map_or(
        0,
        |equations| equations.count,
    )
}
