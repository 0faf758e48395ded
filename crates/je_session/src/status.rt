/// How a run ended. The number is the exit status of the program.
#[derive(Clone, Copy, Debug, PartialEq, Eq)]
pub enum Status {
    /// Each class of the script was written.
    Done = 0,
    /// The script or a class was refused; nothing was written.
    Refused = 1,
    /// The words are not those of a command line; nothing was written.
    Usage = 2,
    /// A file or a stream failed.
    Outside = 3,
    /// There was not enough memory; nothing was written.
    Memory = 4,
}
