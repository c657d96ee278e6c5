// What the tokens of a text are to its directives.

/// The word of a directive. (Reference manual, language directives)
#[derive(Clone, Copy, Debug, PartialEq, Eq)]
pub enum Directive {
    If,
    Ifdef,
    Ifndef,
    While,
    For,
    Switch,
    Macro,
    End,
    Else,
    Case,
    Range,
    Break,
    Declare,
    Local,
    Undef,
    Include,
    Error,
    /// `warning`, `debug`, `render` and `statistics`.
    Message,
    Version,
    Default,
}

/// A word that the language keeps for itself.
#[derive(Clone, Copy, Debug, PartialEq, Eq)]
pub enum Known {
    Directive(Directive),
    /// The word of an object, texture, pigment, finish, interior, material, transform, camera, lamp or colour map.
    Block,
    /// A word that begins a colour.
    Colour,
    Defined,
    /// Every other one.
    Other,
}

/// A token, as directives see it.
#[derive(Clone, Copy, Debug, PartialEq, Eq)]
pub enum Mark {
    Sign(u8),
    Number,
    Text,
    Known(Known),
    /// A word that a scene may give a meaning, by its number among the words of all texts.
    Name(usize),
}
