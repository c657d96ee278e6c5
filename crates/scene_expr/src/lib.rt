//! The values of the expressions of a scene text.
#![tactic(auto)]

mod calls;
mod colours;
mod constants;
mod heads;
mod law;
mod numbers;
mod operators;
mod reader;
mod short;
mod texts;
mod value;
mod vectors;
mod words;

pub use heads::place_at;
pub use law::one_value;
pub use reader::eval;
pub use value::{ExprFault, Level, Settings, Value};
pub use words::{WordClass, word_class};

#[cfg(test)]
mod tests;
