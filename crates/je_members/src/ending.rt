//! How a search along a walk goes on, and how it ends.

use crate::kin::Kin;
use je_base::Text;
use je_world::Link;

/// How a search for a name along a walk ends.
#[derive(Debug, Drop)]
pub(crate) enum Ending<N> {
    /// It went along all of the walk, and met none of the names that were sought.
    Went(N),
    /// It met what is no class, or is above itself.
    Bad(Link),
    /// It met this name, the first of those that were sought.
    Met(Text),
}

/// What a name that is met on a walk comes to.
#[derive(Debug, Drop)]
pub(crate) enum Step {
    /// It is no class, or is above itself.
    Bad(Link),
    /// It is one of those that were sought.
    Met(Text),
    /// It is a class, with what stands directly above it.
    Into(Kin),
}
