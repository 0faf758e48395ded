use je_base::Text;

/// A token of a script.
#[derive(Debug, Drop)]
pub enum Token {
    /// A run of ASCII letters, digits, `_` and `$`, as long as it can be.
    Word(Text),
    /// One of the bytes `{ } ( ) ; .`
    Mark(u8),
}
