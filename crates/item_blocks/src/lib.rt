//! Blocks of the scene language, from their tokens: textures with pigments and finishes, interiors,
//! materials, and steps of transforms; the words, parameters and braces that all items share.
#![tactic(auto)]

mod block;
mod colour_map;
mod fault;
mod finish;
mod law;
mod look;
mod made;
mod parameters;
mod patterns;
mod pigment;
mod pigment_parts;
mod steps;
mod texture;
mod tokens;
mod words;

pub use block::{Block, braced};
pub use colour_map::ColourMap;
pub use fault::{ParseFault, Wanted};
pub use finish::plain_finish;
pub use law::one_outcome;
pub use look::{LookPart, look_part, take_look};
pub use made::ior_of;
pub use parameters::{
    MOST_CHANNEL, MOST_COORDINATE, UNIT, any_float, any_float_of, any_vector, any_vector_of,
    colour, colour_of, float_between, float_of, light, light_of, point, point_of, rgb_of,
    vector_of,
};
pub use patterns::Paint;
pub use pigment::PigmentDraft;
pub use steps::moved;
pub use texture::{Interior, MaterialDraft, TextureDraft, no_material, no_texture, plain_interior};
pub use tokens::{behind_comma, expression, opened, passed, sign_at, unfit_at, word_at};
pub use words::{
    BlockWord, CameraFlag, CameraParameter, CameraWord, FinishWord, GlobalWord, LampFlag,
    LampParameter, LampWord, ModifierWord, PatternWord, PigmentWord, SolidWord, StepWord,
    VectorStep, Word, word_of,
};

#[cfg(test)]
mod tests;
