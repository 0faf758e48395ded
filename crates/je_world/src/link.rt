//! Why a walk goes no further.

use je_base::Text;

/// What a walk over classes meets in place of a class that it has not met.
#[derive(Debug, Drop)]
pub enum Link {
    /// No class has this name.
    NotFound(Text),
    /// What lies under this name is broken.
    Broken(Text),
    /// This class or interface is above itself.
    Cycle(Text),
}
