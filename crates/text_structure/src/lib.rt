//! The tokens of a text as directives see them, and where each list and body of a text ends.
#![tactic(auto)]

mod closer;
mod ends;
mod law;
mod levels;
mod mark;
mod vocabulary;
mod words;
mod written;

pub use closer::{Closer, directive_at, is_block, is_word, sign_at};
pub use law::one_end;
pub use levels::{Misplaced, check_structure};
pub use mark::{Directive, Known, Mark};
pub use vocabulary::Words;
pub use words::known_of;
pub use written::Written;
