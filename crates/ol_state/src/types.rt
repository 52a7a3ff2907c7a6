// The declared types of variables, as the tables have them.
ghost use Rattle.std.specs.Prelude.{◌≡◌, ◌+◌, ◌≤◌, ◌<◌, max, get_or};
ghost use Rattle.ol_tables.specs.Tables.{code_in, enum_in};

use ol_tables::bytes::byte;

// A declared type: the code of the scalar type or of that of the elements, its enum's number, and how many cells a variable of the type fills.
#[derive(Clone, Copy)]
pub(crate) struct VarTy {
    pub(crate) code: usize,
    pub(crate) number: usize,
    pub(crate) cells: usize,
}

// The type whose two bytes stand at `at`.
pub(crate) fn type_at(tab: &[u8], at: usize) -> VarTy
    requires { at ≤ 18000000000000000000 }
    ensures code { result.code ≡ code_in tab.now at }
    ensures number { (result.number ≡ enum_in tab.now at) × (result.number < 16) }
    ensures cells { result.cells ≡ max (get_or tab.now (at + 1) 0) 1 }
{
    let t = byte(tab, at);
    VarTy {
        code: t % 16,
        number: t / 16,
        cells: byte(tab, at + 1).max(1),
    }
}
