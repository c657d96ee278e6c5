// Rows of plain colours.
use scene_model::Rgb;

/// Some of a picture's columns.
#[derive(Clone, Copy)]
pub struct Span {
    pub from: u32,
    pub count: u32,
}

/// Plain colours of three rows of a picture, one above the other.
#[derive(Drop)]
pub struct Rows {
    pub(crate) above: Vec<Rgb>,
    pub(crate) here: Vec<Rgb>,
    pub(crate) below: Vec<Rgb>,
}
