// The names of an equation, one after the other.
ghost use Rattle.std.specs.Iterator.{YieldsFirst, item_count};
ghost use Rattle.ol_order.specs.Names.{names_of};

use ol_ir::Counted;
use ol_ir::read::bytes;
use ol_tables::bytes::name;

// The names that are left, up to one that the file's end cuts off.
#[derive(Drop)]
pub(crate) struct Names<'f> {
    pub(crate) file: &'f [u8],
    pub(crate) left: Counted,
}

impl<'f> Iterator for Names<'f> {
    type Item = usize;

    ghost next_gives = { YieldsFirst names_of };

    ghost remaining = { item_count names_of };

    fn next(&mut self) -> Option<usize> {
        if self.left.count == 0 {
            return None;
        }
        self.left.count -= 1;
        let x = name(self.file, self.left.at);
        match bytes(self.file, 2, self.left.at) {
            Ok(p) => self.left.at = p,
            Err(_) => self.left.count = 0,
        }
        Some(x)
    }
}
