// The kinds of nodes, from their codes in the file.
ghost use Rattle.std.specs.Prelude.{◌≡◌, eqb};
ghost use Rattle.ol_tables.specs.KindCodes.{code_of_node_kind};

// The kind of a node, in the order of the codes (docs/FORMAT.md, "The file").
#[derive(Clone, Copy)]
pub enum NodeKind {
    Function,
    Operator,
    Imported,
}

impl NodeKind {
    // Whether a code is this kind's.
    pub fn is(self, code: usize) -> bool
        ensures { result ≡ eqb code (code_of_node_kind self) }
    {
        code == self as usize
    }
}
