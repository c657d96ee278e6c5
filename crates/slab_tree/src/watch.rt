// What looks on while a ray is asked.

/// What is told of each box that is tested.
pub trait Watch {
    /// A box is tested: one of the tree, a piece's, or those of the leaves of a piece that is asked.
    fn tested(&mut self);
}

/// Takes no notice.
#[derive(Drop)]
pub struct Unwatched;

impl Watch for Unwatched {
    #[inline(always)]
    fn tested(&mut self) {}
}
