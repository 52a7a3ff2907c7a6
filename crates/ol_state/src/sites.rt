// The call sites of a node, in file order: the calls in its equations' right sides are met one by one.
ghost use Rattle.std.specs.Prelude.{◌≡◌};
ghost use Rattle.std.specs.Iterator.{YieldsFirst, item_count};
ghost use Rattle.ol_tables.specs.Tables.{row_at};
ghost use Rattle.ol_tables.specs.Table.{rows_of};
ghost use Rattle.ol_state.specs.Ahead.{callees_of, ahead};

use ol_tables::bytes::byte;
use ol_tables::heads::{NextCall, next_call};
use ol_tables::table::column;
use ol_tables::tables::{COUNT, EQUATIONS};

// The callees of the call sites that are left: `pending` expressions stand at `at`, and `eqs` equations behind them.
#[derive(Drop)]
pub(crate) struct CallSites<'a> {
    file: &'a [u8],
    at: usize,
    eqs: usize,
    pending: usize,
}

// The call sites of node k.
pub(crate) fn call_sites<'a>(file: &'a [u8], tab: &[u8], k: usize) -> CallSites<'a>
    ensures { callees_of result ≡ ahead file.now (row_at (rows_of tab.now) k 1) (row_at (rows_of tab.now) k 5) 0 }
{
    CallSites {
        file,
        at: column(tab, k, EQUATIONS),
        eqs: column(tab, k, COUNT),
        pending: 0,
    }
}

impl<'a> Iterator for CallSites<'a> {
    type Item = usize;

    ghost next_gives = { YieldsFirst callees_of };

    ghost remaining = { item_count callees_of };

    // No count: equations are passed over until one has a call. It is put into its callers: measured faster.
    #[inline(always)]
    fn next(&mut self) -> Option<usize> {
        loop {
            let end = match next_call(self.file, self.pending, self.at) {
                NextCall::Found(c) => {
                    self.at = c.at;
                    self.pending = c.left;
                    return Some(c.callee);
                }
                NextCall::End(end) => end,
            };
            if self.eqs == 0 || self.file.len() <= end {
                return None;
            }
            self.at = end + 1 + 2 * byte(self.file, end);
            self.eqs -= 1;
            self.pending = 1;
        }
    }
}
