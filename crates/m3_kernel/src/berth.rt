//! What the kernel keeps of each tile.

/// The seats of who leaves the tile and of who is there or comes.
#[derive(Clone, Copy, Debug, PartialEq, Eq, Drop)]
pub struct Berth {
    pub leaving: Option<usize>,
    pub there: Option<usize>,
}
