// A file as it is loaded, and as it is admitted.

// A file that reads without fault: how many enums it has, and where its nodes start. What holds of it is `Loads`, and
// of an admitted file `Stands`: each has data in it, as the end of the reading, and in a ghost field it would stand truncated, to be taken out again in each proof that reads a part.
#[derive(Clone, Copy)]
pub(crate) struct Project<'a> {
    pub(crate) file: &'a [u8],
    pub(crate) enums: usize,
    pub(crate) places: &'a [usize],
}

// A file that is admitted: its table, its table by name, the length of its state and its main node's number.
#[derive(Clone, Copy)]
pub(crate) struct Program<'a> {
    pub(crate) file: &'a [u8],
    pub(crate) tab: &'a [u8],
    pub(crate) names: &'a [u8],
    pub(crate) size: usize,
    pub(crate) main: usize,
}
