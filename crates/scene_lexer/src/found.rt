// What a text begins with.
use crate::Kind;

/// What a text begins with: a token's kind, or none for a gap; how many bytes spell it; and how many of
/// them are line feeds.
#[derive(Drop)]
pub struct Found {
    pub kind: Option<Kind>,
    pub length: usize,
    pub lines: u32,
}
