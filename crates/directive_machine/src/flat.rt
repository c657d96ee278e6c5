// What a scene's text comes to once its directives are carried out.
use fix_math::Str;
use scene_lexer::Token;

/// A text that was read, under the name under which it was found.
#[derive(Drop)]
pub struct Source {
    pub name: Str,
    pub text: Str,
}

/// The tokens that are handed out, and the texts read, in order of first reading: the number in a token's
/// place is the index of its text.
#[derive(Drop)]
pub struct Flat {
    pub tokens: Vec<Token>,
    pub files: Vec<Source>,
}
