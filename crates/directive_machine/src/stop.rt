// Why an expansion stops.
use fix_math::Str;
use scene_expr::ExprFault;
use scene_lexer::{LexFault, Place};

/// Why a scene's directives can't be carried out to the end.
#[derive(Drop)]
pub enum Stop {
    /// A text has no tokens. It never holds a want of memory.
    Lex(LexFault),
    /// An expression of a directive or of a call has no value. It never holds a want of memory.
    Expr(ExprFault),
    /// A directive isn't well formed: 1 its word is unknown, 2 its `#end` is missing, 3 it stands where it can't,
    /// 4 its head isn't of its form, 5 it binds a reserved word, 6 a macro is called with another number of
    /// arguments, 7 the step of a `#for` is 0.
    Directive { kind: u8, place: Place },
    /// A text that is asked for isn't there.
    Absent { name: Str, place: Place },
    /// A text couldn't be read: the count of faults of the texts rose.
    TextFault,
    /// The text of an `#error`.
    UserError { text: Str, place: Place },
    /// A count passes its greatest number: 1 tokens taken, 2 tokens handed out, 3 depth, 4 bytes of the texts,
    /// 6 bytes of messages.
    Limit { which: u8, place: Place },
    /// There is no memory.
    NoMemory,
}
