// The reader of ol_ir alone, for bench/read and bench/run to time.
#![tactic(auto)]

ghost use Rattle.std.specs.Prelude.{◌≡◌};
ghost use Rattle.ol_spec.specs.Limits.{relay_loader};
ghost use Rattle.ol_spec.specs.Read.{read_file};
ghost use Rattle.read_bench.specs.Digests.{loaded_digest, read_digest};

use ol_ir::Loaded;
use ol_ir::project::load_file;
use ol_spec::Fault;

// How many nodes a loaded file has; of a refused one its fault's number, above 256.
fn digest(l: Result<Loaded, Fault>) -> u64
    ensures { result ≡ loaded_digest l }
{
    match l {
        Ok(l) => l.nodes as u64,
        Err(f) => 256 + u64::from(f.number),
    }
}

// Reads a file, with the table of the places at which its nodes start.
#[unsafe(no_mangle)]
pub extern "C" fn ol_read_bench(file: &[u8]) -> u64
    ensures { result ≡ read_digest (read_file file.now relay_loader) }
{
    let mut starts = [0usize; 32];
    digest(load_file(file, &mut starts))
}
