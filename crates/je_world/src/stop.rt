//! Why a world gave nothing.

/// Why a call that asks a world gave nothing, where the cause is no class.
#[derive(Clone, Copy, Debug, PartialEq, Eq)]
pub enum Stop {
    /// The outside failed.
    Failed,
    /// There was not enough memory.
    Memory,
}

/// Why a look gave no class.
#[derive(Clone, Copy, Debug, PartialEq, Eq)]
pub enum WorldStop {
    /// The outside failed.
    Failed,
    /// What lies under the name is no class file, or that of another class.
    Broken,
    /// There was not enough memory.
    Memory,
}
