// Why a state file isn't opened.

/// Why a state file can't be opened.
#[derive(Clone, Copy, Debug, PartialEq, Eq)]
pub enum OpenFault {
    /// The file is another frame's: the first place behind its gate at which it differs from this
    /// frame's header and key, with its byte there. Where it ends before it differs, or hasn't the
    /// length that it must have, the place is its end, and there is no byte.
    OtherState { place: u64, kept: Option<u8> },
    /// The storage failed; its count of faults rose.
    ShelfFault,
    /// There is no memory.
    NoMemory,
}
