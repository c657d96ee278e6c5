// What names are bound to.
ghost use Rattle.std.specs.Prelude.{◌≡◌};

use scene_expr::Value;
use scene_lexer::Token;
use std::marker::Model;

/// The tokens of a declared block. Contracts see them as a list.
#[derive(Drop)]
pub struct Block {
    tokens: Vec<Token>,
}

impl Model for Block {
    ghost use Rattle.std.specs.Prelude.{List};
    ghost use Rattle.scene_lexer.specs.declared.token.Token.{Token};

    ghost Value = { List Token };

    ghost view = { λ block. block.tokens.items };
}

impl Block {
    pub fn new(tokens: Vec<Token>) -> Block
        ensures { result ≡ tokens.items }
    {
        Block { tokens }
    }

    pub fn tokens(&self) -> &[Token]
        ensures { result.now ≡ self.now }
    {
        self.tokens.as_slice()
    }
}

/// A macro as it stands in its text.
#[derive(Clone, Copy, Debug, PartialEq, Eq)]
pub struct Macro {
    /// The number of the text.
    pub text: usize,
    /// The place of its first parameter; the others follow behind a comma each.
    pub parameters: usize,
    /// How many parameters it has.
    pub count: usize,
    /// The place of its body, and where that ends.
    pub body: usize,
    pub end: usize,
}

/// What a name is bound to.
#[derive(Drop)]
pub enum Binding {
    Value(Value),
    Block(Block),
    Macro(Macro),
    /// Another name, in the scopes that lie further out. It is a parameter of a macro.
    Reference(usize),
}
