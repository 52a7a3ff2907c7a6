// The start: the fresh state.
ghost use Rattle.std.specs.Prelude.{◌≡◌};
ghost use Rattle.ol_spec.specs.Limits.{relay_loader};
ghost use Rattle.ol_spec.specs.State.{fresh_state};
ghost use Rattle.ol_spec.specs.Cycle.{start};
ghost use Rattle.ol_tables.specs.At.{file_at};
ghost use Rattle.ol_sim.specs.Calls.{StartsAs};
ghost use Rattle.ol_sim.specs.Judging.{values_in};
ghost use Rattle.ol_sim.specs.Starting.{StartReady};
ghost use Rattle.ol_sim.specs.Serving.{Stands};

use crate::program::Program;
use ol_frame::copies::copy;
use ol_spec::Fault;
use ol_state::fresh::write_fresh;
use ol_tables::table::{consts_from, known};

// The constants' cells, then the main instance, fresh.
fn write_start(file: &[u8], tab: &[u8], main: usize, state: &mut [u8])
    requires { StartReady file.now tab.now main state.old }
    ensures { state.new ≡ fresh_state (file_at file.now) (values_in (file_at file.now)) }
{
    let n = 9 * known(tab);
    let from = consts_from(tab);
    let cells = &tab[from..from + n];
    copy(cells, &mut state[..n]);
    write_fresh(file, tab, main, &mut state[n..]);
}

impl Program<'_> {
    // 17, then the fresh state.
    pub(crate) fn start(&self, state: &mut [u8]) -> Result<(), Fault>
        requires { Stands self.now }
        ensures { StartsAs (start relay_loader self.now.file.now state.old) result state.new }
    {
        if state.len() == self.size {
            write_start(self.file, self.tab, self.main, state);
            Ok(())
        } else {
            Err(Fault {
                number: 17,
                place: 0,
            })
        }
    }
}
