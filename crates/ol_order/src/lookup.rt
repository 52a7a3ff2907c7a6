// The equation that defines a name, and the lists of those that equations wait for.
ghost use Rattle.std.specs.Prelude.{◌≡◌, suc, ◌+◌, ◌≤◌, ◌<◌, length, get_or, None};
ghost use Rattle.std.proofs.lemmas.List.Edits.{sets};
ghost use Rattle.ol_spec.specs.Order.{definer as last_definer};
ghost use Rattle.ol_order.specs.Tables.{as_option, bounds};
ghost use Rattle.ol_order.specs.Post.{Definers};
ghost use Rattle.ol_order.specs.Equations.{those, waited_by, all_waited};

use crate::equations::Equations;
use ol_ir::Scan;
use ol_ir::expr::scan;
use ol_tables::bytes::byte;

// Equations with the table of their definers: for each remainder by N the last equation that
// defines a name of it. With `low` each name's own entry has its definer. It is a fact of the names:
// no field waits for it, and two variants would have the same fields.
#[derive(Clone, Copy)]
pub(crate) struct Lookup<'f, 's, 't, const N: usize> {
    pub(crate) equations: Equations<'f, 's>,
    pub(crate) low: bool,
    pub(crate) definers: &'t [Option<u8>],
    ghost entries: { 0 < N },
    ghost told: { Definers N (those equations) low definers.now },
}

// An entry of the table; past its end it is none.
fn definer(definers: &[Option<u8>], x: usize) -> Option<usize>
    ensures { result ≡ get_or definers.now x None }
{
    definers.get(x).copied().flatten().map(usize::from)
}

impl<'f, 's, 't, const N: usize> Lookup<'f, 's, 't, N> {
    // A name's definer. With `low` the table has it. Else no equation behind the one that the table has
    // for the name's remainder defines the name.
    fn find(self, x: usize) -> Option<usize>
        ensures { result ≡ as_option (last_definer (those self.entry.equations) x) }
    {
        if self.low {
            return definer(self.definers, x);
        }
        let d = definer(self.definers, x % N)?;
        self.equations.search(d + 1, x)
    }

    // Writes the definers that equation k waits for into the lists, from n on: where they end. `left` is no count of an index: each head adds its
    // parts to it. `end` is where the next is written: a name without a definer writes none.
    fn record_one(self, k: usize, lists: &mut [u8], n: usize) -> usize
        requires k_in_bounds { k < length self.equations.starts.now }
        requires room { n + length (waited_by self.equations k) ≤ length lists.old }
        ensures end { result ≡ n + length (waited_by self.entry.equations k) }
        ensures written { lists.new ≡ sets lists.old n (waited_by self.entry.equations k) }
    {
        let file = self.equations.file;
        let start = self.equations.starts[k];
        let mut at = start + 1 + 2 * byte(file, start);
        let mut left: usize = 1;
        let mut end = n;
        while 0 < left {
            left -= 1;
            match scan(file, at) {
                Scan::Name(x, q) => {
                    if let Some(d) = self.find(x) {
                        lists[end] = d as u8;
                        end += 1;
                    }
                    at = q;
                }
                Scan::Parts(m, q) => {
                    left += m;
                    at = q;
                }
            }
        }
        end
    }

    // Records for each equation the definers that it waits for: those of equation k stand in the lists
    // from begins[k] up to begins[k + 1].
    pub(crate) fn record_all(self, lists: &mut [u8], begins: &mut [usize])
        requires room { length (all_waited self.equations) ≤ length lists.old }
        requires begins_len { length begins.old ≡ suc (length self.equations.starts.now) }
        ensures lists { lists.new ≡ sets lists.old 0 (all_waited self.entry.equations) }
        ensures begins { begins.new ≡ sets begins.old 0 (bounds (those self.entry.equations) 0 (those self.entry.equations)) }
    {
        let count = self.equations.starts.len();
        let mut n: usize = 0;
        for k in 0..count {
            begins[k] = n;
            n = self.record_one(k, lists, n);
        }
        begins[count] = n;
    }
}
