//! A scene text as a list of tokens, each with its place.
#![tactic(auto)]

mod bytes;
mod comment;
mod found;
mod lexer;
mod name;
mod number;
mod read;
mod scan;
pub mod sign;
mod text;
mod token;
mod value;

pub use lexer::lex;
pub use name::Name;
pub use token::{Kind, LexFault, Place, Token};
pub use value::number_value;

#[cfg(test)]
mod tests;
