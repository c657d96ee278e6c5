// What a pen has noted of a block.

/// How far a block has come.
#[derive(Clone, Copy, Debug, PartialEq, Eq)]
pub enum Mark {
    /// Its gate is closed.
    Shut,
    /// Its pixels are safe; its gate may be open or not.
    Ready,
    /// It stands open.
    Open,
}
