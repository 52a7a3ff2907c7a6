// The table by name: entry 0 for none, a variable's index and 1, a constant's index and 113, 255 for a variant. The first entry of a name stays.
ghost use Rattle.std.specs.Prelude.{◌≡◌, map, ◌≤◌, ◌<◌};
ghost use Rattle.ol_check.specs.Spans.{names_of, names_from, variants_from};
ghost use Rattle.ol_check.specs.Entries.{declared, forgot, declare_all, variant_entry};

use super::rows::names_end;
use ol_tables::bytes::{byte, name, put};
use ol_tables::tables::VARIANT;

// Entries of the table by name: none, the last of a variable, and the first of a constant; a variant's is VARIANT (ol_tables).
// An enum of entries is no plainer: a slot is the entry less one for both kinds, and each byte would be made into an enum and taken apart at once.
pub(crate) const NO_ENTRY: usize = 0;

pub(crate) const LAST_VARIABLE: usize = 112;

pub(crate) const FIRST_CONSTANT: usize = 113;

// Enters a name, unless it has an entry.
pub(crate) fn declare(names: &mut [u8], x: usize, e: u8)
    ensures { names.new ≡ declared names.old x e }
{
    if byte(names, x) == NO_ENTRY {
        put(names, x, e);
    }
}

// Takes a name's entry back, if it is a variable's.
pub(crate) fn forget(names: &mut [u8], x: usize)
    ensures { names.new ≡ forgot names.old x }
{
    if byte(names, x) <= LAST_VARIABLE {
        put(names, x, NO_ENTRY as u8);
    }
}

// Enters so many variants from `at` on.
fn declare_variants(file: &[u8], names: &mut [u8], count: usize, at: usize)
    requires { (count < 256) × (at ≤ 40000) }
    ensures { names.new ≡ declare_all names.old (map variant_entry (names_of (names_from file.now count at))) }
{
    for i in 0..count {
        declare(names, name(file, at + 2 * i), VARIANT as u8);
    }
}

// Enters the variants of so many enums from `at` on.
pub(crate) fn declare_enums(file: &[u8], names: &mut [u8], count: usize, at: usize)
    requires { (count ≤ 16) × (at ≤ 20000) }
    ensures { names.new ≡ declare_all names.old (map variant_entry (variants_from file.now count at)) }
{
    let mut next = at;
    for _i in 0..count {
        declare_variants(file, names, byte(file, next), next + 1);
        next = names_end(file, next);
    }
}
