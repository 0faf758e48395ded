//! Scripts: their tokens, and how they are parsed.

mod parse;
mod token;
mod tokens;

pub use parse::parse_script;
pub use token::Token;
pub use tokens::ScriptStop;
