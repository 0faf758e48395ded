//! The words of the command line.

/// What is done with the files.
#[derive(Clone, Copy, Debug, PartialEq, Eq)]
pub enum Verb {
    /// They are read and written again.
    Reread,
    /// The code of their methods is decoded and assembled again.
    Code,
    /// The code of their methods with its tables is read, written and read again.
    Tables,
    /// What was decoded is printed.
    Listing,
    /// The rows of the tables are printed.
    Rows,
    /// The least shapes of their methods are sought.
    Shapes,
}

impl Verb {
    /// The verb of this name.
    pub fn of(word: &str) -> Option<Verb> {
        match word {
            "reread" => Some(Verb::Reread),
            "code" => Some(Verb::Code),
            "tables" => Some(Verb::Tables),
            "listing" => Some(Verb::Listing),
            "rows" => Some(Verb::Rows),
            "shapes" => Some(Verb::Shapes),
            _ => None,
        }
    }
}
