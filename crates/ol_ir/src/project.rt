// Enums, constants and the whole file.
ghost use Rattle.std.proofs.lemmas.List.Edits.{sets};
ghost use Rattle.std.specs.Prelude.{List, map, ◌≡◌, ℕ, ◌+◌};
ghost use Rattle.ol_spec.specs.Syntax.{Node, File};
ghost use Rattle.ol_spec.specs.Places.{placed, node_size, placed_nodes};
ghost use Rattle.ol_spec.specs.Limits.{base, relay_loader};
ghost use Rattle.ol_spec.specs.Read.{got, many, section_r, enum_r, constant_r, node_r, read_file};
ghost use Rattle.ol_ir.specs.Nexts.{next_of, list_of, reading_of, after_format};
ghost use Rattle.ol_ir.specs.Walks.{place_of, loaded_of, nodes_of, last_nodes, places_of, node_places, file_places, load_places};

use super::node::names;
use super::read::{count, many, refused, section};
use super::{Counted, Loaded, Reader};
use ol_spec::{Fault, Limits};
use ol_tables::bytes::put;

// The enums: how many there are, and where the constants start.
fn enums(file: &[u8], limits: &Limits, at: usize) -> Result<Counted, Fault>
    ensures { result ≡ list_of (section_r file.now 0 limits.now.enums (enum_r file.now limits.now) at) }
{
    let n = count(file, 0, limits.enums, at)?;
    let end = many(n.count, n.at, |p| names(file, limits.variants, p))?;
    Ok(Counted {
        count: n.count,
        at: end,
    })
}

impl Reader<'_> {
    // A constant: its name, its type and its value.
    fn constant(&self, at: usize) -> Result<usize, Fault>
        ensures { result ≡ next_of (constant_r self.now.file.now self.now.limits.now self.now.enums at) }
    {
        let p = self.variable(at)?;
        self.exprs(self.limits.nesting, 1, p)
    }

    // The constants.
    fn constants(&self, at: usize) -> Result<usize, Fault>
        ensures { result ≡ next_of (section_r self.now.file.now 0 self.now.limits.now.constants (constant_r self.now.file.now self.now.limits.now self.now.enums) at) }
    {
        section(
            self.file,
            0,
            self.limits.constants,
            at,
            |p| self.constant(p),
        )
    }

    // So many nodes: entry k of the table gets the place at which node k starts.
    fn nodes(&self, count: usize, at: usize, starts: &mut [usize]) -> Result<usize, Fault>
        ensures next { result ≡ next_of (many count (node_r self.now.file.now self.now.limits.now self.now.enums) at) }
        ensures places { starts.new ≡ sets starts.old 0 (places_of count (node_r self.now.file.now self.now.limits.now self.now.enums) at) }
    {
        let mut next = at;
        for i in 0..count {
            put(starts, i, next);
            next = self.node(next)?;
        }
        Ok(next)
    }

    // The nodes, up to the file's end.
    fn last_nodes(&self, at: usize, starts: &mut [usize]) -> Result<Loaded, Fault>
        ensures nodes { result ≡ nodes_of self.now.enums (last_nodes self.now.file.now self.now.limits.now self.now.enums at) }
        ensures places { (ns : List Node) (end : ℕ) → last_nodes self.now.file.now self.now.limits.now self.now.enums at ≡ got ns end → starts.new ≡ sets starts.old 0 (map place_of (placed node_size (at + 1) ns)) }
        ensures all { starts.new ≡ sets starts.old 0 (node_places self.now.file.now self.now.limits.now self.now.enums at) }
    {
        let n = count(self.file, 1, self.limits.nodes, at)?;
        let q = self.nodes(n.count, n.at, starts)?;
        if q < self.file.len() {
            refused(2, q)
        } else {
            Ok(Loaded {
                enums: self.enums,
                nodes: n.count,
            })
        }
    }
}

// What follows the format byte, up to the file's end: entry k of the table gets the place at which
// node k starts.
fn load_limited(file: &[u8], limits: &Limits, starts: &mut [usize]) -> Result<Loaded, Fault>
    ensures read { result ≡ loaded_of (after_format file.now limits.now) }
    ensures places { (f : File) (end : ℕ) → after_format file.now limits.now ≡ got f end → starts.new ≡ sets starts.old 0 (map place_of (placed_nodes f)) }
    ensures all { starts.new ≡ sets starts.old 0 (file_places file.now limits.now) }
{
    let e = enums(file, limits, 1)?;
    let reader = Reader {
        file,
        limits,
        enums: e.count,
    };
    let q = reader.constants(e.at)?;
    reader.last_nodes(q, starts)
}

// The limits of the format that the relay knows.
pub fn base() -> Limits
    ensures { result ≡ base }
{
    Limits {
        enums: 16,
        variants: 32,
        constants: 64,
        nodes: 32,
        inputs: 32,
        outputs: 16,
        locals: 64,
        equations: 80,
        names: 16,
        arguments: 32,
        items: 16,
        elements: 32,
        arrays: 32,
        nesting: 24,
        state: 32768,
    }
}

// The whole file, by the relay's own loader: entry k of the table gets the place at which node k
// starts.
pub fn load_file(file: &[u8], starts: &mut [usize]) -> Result<Loaded, Fault>
    ensures read { result ≡ loaded_of (read_file file.now relay_loader) }
    ensures places { (f : File) (end : ℕ) → read_file file.now relay_loader ≡ got f end → starts.new ≡ sets starts.old 0 (map place_of (placed_nodes f)) }
    ensures all { starts.new ≡ sets starts.old 0 (load_places file.now) }
{
    if 32768 < file.len() {
        refused(1, 32768)
    } else if file.is_empty() {
        refused(2, 0)
    } else if file[0] == 1 {
        load_limited(file, &base(), starts)
    } else {
        refused(3, 0)
    }
}

// The whole file, by the relay's own loader.
pub fn read_file(file: &[u8]) -> Result<(), Fault>
    ensures { result ≡ reading_of (read_file file.now relay_loader) }
{
    load_file(file, &mut [])?;
    Ok(())
}
