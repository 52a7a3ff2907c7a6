// Bytes, codes, counts and sections.
ghost use Rattle.std.specs.Prelude.{◌≡◌, ◌<◌, ◌≤◌, ℕ, Err, IfOk, MatchResult, length, get_or};
ghost use Rattle.ol_spec.specs.Lists.{up_to};
ghost use Rattle.ol_spec.specs.Read.{number, coded, count_r};
ghost use Rattle.ol_spec.specs.Answers.{fault_at};
ghost use Rattle.ol_ir.specs.Nexts.{Next, Answers, next_of, counted_of, repeat, section_by};

use super::Counted;
use ol_spec::Fault;

// A fault, as an answer.
pub(crate) fn refused<T>(number: u8, place: usize) -> Result<T, Fault>
    ensures { result ≡ Err (fault_at number place) }
{
    Err(Fault { number, place })
}

// The byte at `at`.
pub(crate) fn byte(file: &[u8], at: usize) -> Result<usize, Fault>
    ensures { MatchResult result (λ b. (at < length file.now) × (b ≡ get_or file.now at 0) × (b < 256)) (λ f. (length file.now ≤ at) × (f ≡ fault_at 2 (length file.now))) }
{
    if at < file.len() {
        Ok(usize::from(file[at]))
    } else {
        refused(2, file.len())
    }
}

// Passes over so many bytes.
pub fn bytes(file: &[u8], count: usize, at: usize) -> Result<usize, Fault>
    ensures { result ≡ next_of (number file.now count 0 at) }
{
    let end = file.len();
    if count == 0 {
        Ok(at)
    } else if at < end && count <= end - at {
        Ok(at + count)
    } else {
        refused(2, end)
    }
}

// A byte that is a code below `bound`.
pub(crate) fn code(file: &[u8], bound: usize, at: usize) -> Result<usize, Fault>
    ensures { result ≡ next_of (coded file.now (up_to bound) at) }
{
    if byte(file, at)? < bound {
        Ok(at + 1)
    } else {
        refused(3, at)
    }
}

// A count from `lo` to `hi`.
pub fn count(file: &[u8], lo: usize, hi: usize, at: usize) -> Result<Counted, Fault>
    ensures is { result ≡ counted_of (count_r file.now lo hi at) }
    ensures few { IfOk result (λ n. n.count < 256) }
{
    let n = byte(file, at)?;
    if lo <= n && n <= hi {
        Ok(Counted {
            count: n,
            at: at + 1,
        })
    } else {
        refused(4, at)
    }
}

// So many items, one after the other: where they end.
pub(crate) fn many<F: Fn(usize) -> Result<usize, Fault>>(
    count: usize,
    at: usize,
    item: F,
) -> Result<usize, Fault>
    requires { F.IsAlwaysCallable item }
    ensures { (f : ℕ → Next) → Answers (F.post item) f → result ≡ repeat count f at }
{
    let mut next = at;
    for _i in 0..count {
        next = item(next)?;
    }
    Ok(next)
}

// A count from `lo` to `hi`, and so many items: where they end.
pub(crate) fn section<F: Fn(usize) -> Result<usize, Fault>>(
    file: &[u8],
    lo: usize,
    hi: usize,
    at: usize,
    item: F,
) -> Result<usize, Fault>
    requires { F.IsAlwaysCallable item }
    ensures { (f : ℕ → Next) → Answers (F.post item) f → result ≡ section_by f (count_r file.now lo hi at) }
{
    let n = count(file, lo, hi, at)?;
    many(n.count, n.at, item)
}
