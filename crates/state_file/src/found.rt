// What a state file was found to be.

/// A file by its front.
#[derive(Clone, Copy)]
pub(crate) enum Found {
    /// It is made anew; it has this length and this first byte.
    New { size: u64, gate: u8 },
    /// It is another frame's.
    Other { place: u64, kept: Option<u8> },
    /// It is this frame's.
    Same,
}
