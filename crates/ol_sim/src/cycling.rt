// The cycle: 15 to 17, then the main instance's run and its end.
ghost use Rattle.std.specs.Prelude.{◌≡◌};
ghost use Rattle.ol_spec.specs.Limits.{relay_loader};
ghost use Rattle.ol_spec.specs.Answers.{fault_at};
ghost use Rattle.ol_spec.specs.Cycle.{cycle};
ghost use Rattle.ol_sim.specs.Calls.{CyclesAs};
ghost use Rattle.ol_sim.specs.Serving.{Stands};

use crate::program::Program;
use ol_run::main_cycle::run_main;
use ol_spec::{Cycled, Fault};
use ol_state::{good_inputs, good_state};
use ol_tables::table::cells_of;

// A refusal at place 0.
fn refuse(number: u8) -> Cycled
    ensures { result ≡ Cycled.Refused (fault_at number 0) }
{
    Cycled::Refused(Fault { number, place: 0 })
}

impl Program<'_> {
    // 15, 16 and 17, then the run. The table by name tells the variants.
    pub(crate) fn cycle(
        &self,
        old: &[u8],
        inputs: &[u8],
        new: &mut [u8],
        values: &mut [u8],
    ) -> Cycled
        requires { Stands self.now }
        ensures { CyclesAs (cycle relay_loader self.now.file.now old.now inputs.now new.old values.old) result new.new values.new }
    {
        let file = self.file;
        let tab = self.tab;
        let main = self.main;
        if !good_state(file, tab, self.names, old) {
            return refuse(15);
        }
        if !good_inputs(file, tab, inputs) {
            return refuse(16);
        }
        let n = cells_of(tab, main, 3);
        if new.len() != self.size || values.len() != 9 * n {
            return refuse(17);
        }
        run_main(file, tab, main, old, inputs, new, values)
    }
}
