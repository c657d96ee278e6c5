// The memory of a drawing.
use crate::rows::Rows;
use csg_hits::Scratch;

/// What a worker needs while it draws, taken before.
#[derive(Drop)]
pub struct Work {
    pub(crate) scratch: Scratch,
    pub(crate) rows: Rows,
}
