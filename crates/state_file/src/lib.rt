//! State files: which blocks of a picture are traced, with their pixels, so that a run that was
//! stopped can be continued.
#![tactic(auto)]

mod attach;
mod attached;
mod block;
mod commit;
mod fault;
mod found;
mod frame;
mod geometry;
mod head;
mod lay;
mod load;
mod look;
mod make;
mod mark;
mod opening;
mod pen;
mod room;
mod save;
mod write;

pub use block::DoneBlock;
pub use fault::OpenFault;
pub use geometry::Geometry;
pub use mark::Mark;
pub use opening::open;
pub use pen::Pen;
