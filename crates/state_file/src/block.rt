// A block of pixels that is done.

/// The pixels of one block, by rows: red, green and blue of each, of one byte or two.
#[derive(Drop)]
pub struct DoneBlock {
    /// The block's number, by rows of blocks from the top left.
    pub index: u32,
    pub pixels: Vec<u8>,
}
