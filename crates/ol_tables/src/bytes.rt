// Bytes, names and table entries. What lies past an end is 0, and no Option: the definitions read a list so (`get_or`). Storing there does nothing, as with their `set`.
ghost use Rattle.std.specs.Prelude.{◌≡◌, ◌<◌, get_or, set};
ghost use Rattle.ol_tables.specs.Heads.{name_at};
ghost use Rattle.ol_tables.specs.Heads.{Byte};
ghost use Rattle.ol_tables.specs.Tables.{two_put};

// The byte at `at`.
pub fn byte(s: &[u8], at: usize) -> usize
    ensures { Byte s.now at result }
{
    s.get(at).map_or(0, |b| usize::from(*b))
}

// The name at `at`. No `u16::from_be_bytes`: it takes an array, for which both bytes have to be there.
pub fn name(s: &[u8], at: usize) -> usize
    ensures is { result ≡ name_at s.now at }
    ensures small { result < 65536 }
{
    if at < s.len() {
        byte(s, at) * 256 + byte(s, at + 1)
    } else {
        0
    }
}

// The entry at `i`.
pub fn entry(rows: &[usize], i: usize) -> usize
    ensures { result ≡ get_or rows.now i 0 }
{
    rows.get(i).copied().unwrap_or(0)
}

// Stores an entry.
pub fn put<T: Copy>(rows: &mut [T], i: usize, n: T)
    ensures { rows.new ≡ set rows.old i n }
{
    if i < rows.len() {
        rows[i] = n;
    }
}

// Stores a number in two bytes from p on. No copy of `to_be_bytes`: it asks for room for both, where this stores those that there are.
pub fn put_two(tab: &mut [u8], p: usize, n: usize)
    ensures { tab.new ≡ two_put tab.old p n }
{
    if p < tab.len() {
        put(tab, p, (n / 256 % 256) as u8);
        put(tab, p + 1, (n % 256) as u8);
    }
}
