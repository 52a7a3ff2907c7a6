// The lengths that a caller needs, from the table of an admitted file.
ghost use Rattle.ol_spec.specs.Limits.{relay_loader};
ghost use Rattle.ol_spec.specs.Cycle.{lengths};
ghost use Rattle.ol_sim.specs.Calls.{MeasuresAs};
ghost use Rattle.ol_sim.specs.Serving.{Stands};

use crate::program::Program;
use ol_spec::{Fault, Lengths};
use ol_tables::table::{cells_of, column};
use ol_tables::tables::COUNT;

impl Program<'_> {
    // The main node's inputs and values, and the equations of a node; 3 at place 0 where there is no such node.
    pub(crate) fn measure(&self, node: usize) -> Result<Lengths, Fault>
        requires { Stands self.now }
        ensures { MeasuresAs (lengths relay_loader self.now.file.now node) result }
    {
        let tab = self.tab;
        let main = self.main;
        if node <= main {
            Ok(Lengths {
                state: self.size,
                inputs: 9 * cells_of(tab, main, 1),
                values: 9 * cells_of(tab, main, 3),
                equations: column(tab, node, COUNT),
            })
        } else {
            Err(Fault {
                number: 3,
                place: 0,
            })
        }
    }
}
