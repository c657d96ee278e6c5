// How a run ends.
use fix_math::Str;
use options::Where;
use scene_lexer::Place;

/// What a run comes to, one variant for each status.
#[derive(Drop)]
pub enum Fault {
    /// Every frame's file holds the bytes of its picture.
    Done,
    /// The options are refused: the kind, and the word or line.
    OptionFault(u8, Where),
    /// The scene is refused: the letter of what found it, the kind there, and the place. The letters are L for the
    /// tokens, E for an expression of a directive, D for a directive, U for an `#error`, and P for the items.
    SceneFault(u8, u8, Place),
    /// A count passes its limit: the number of the limit, and the place.
    Limit(u8, Place),
    /// A text of this name isn't there.
    Absent(Str),
    /// A text couldn't be read; the texts' count of faults rose.
    TextFault,
    /// The storage failed; its count of faults rose.
    ShelfFault,
    /// The messages of a frame couldn't be written; the sink's count of faults rose.
    MessageFault,
    /// There is no memory.
    NoMemory,
}

/// A block that was traced.
#[derive(Clone, Copy, Debug, PartialEq, Eq)]
pub struct Traced {
    /// The number of the frame.
    pub frame: u32,
    /// The number of the block in its picture, by rows from the top left.
    pub block: u32,
}

/// All that a run leaves.
#[derive(Drop)]
pub struct Outcome<S: Drop> {
    /// The number of the fault's row: the program's exit status.
    pub status: u8,
    pub fault: Fault,
    /// The blocks that were traced. No block is kept apart yet, so there are none.
    pub traced: Vec<Traced>,
    /// How many frames, from the first on, have their picture file written and synced.
    pub finished: u32,
    pub shelf: S,
}
