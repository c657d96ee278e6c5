// The nodes of a tree of boxes.
use box_probe::Bounds;

/// How many pieces stand in a leaf, at most.
pub const LEAF: u32 = 4;

/// A box of a tree. The nodes stand in the order in which a walk comes to them.
#[derive(Clone, Copy)]
pub struct Node {
    pub bounds: Bounds,
    /// The place behind the nodes that stand below this one: there a ray that misses the box goes on.
    pub skip: u32,
    /// Where a leaf's pieces begin in the order of pieces; the number of all of them where the node is no leaf.
    pub start: u32,
}

impl Node {
    /// A node that is yet to be written.
    pub fn blank() -> Node {
        Node {
            bounds: Bounds::world(),
            skip: 0,
            start: 0,
        }
    }
}

/// The nodes of a tree in the order that suits the rays of one octant.
#[derive(Drop)]
pub struct Track {
    pub nodes: Vec<Node>,
}
