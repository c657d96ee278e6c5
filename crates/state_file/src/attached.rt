// What came of a state file.

/// How a state file stands.
#[derive(Clone, Copy)]
pub(crate) enum Attached {
    /// It was made anew.
    Fresh,
    /// It is continued, and was read whole.
    Loaded,
    /// It is another frame's, and stays as it is.
    Other { place: u64, kept: Option<u8> },
}
