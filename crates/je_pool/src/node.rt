//! A class that is kept.

ghost use Rattle.std.specs.Prelude.{◌≡◌, ◌<◌, length, IfOk, IfSome, slice_get};
ghost use Rattle.std.specs.Option.{option_and_then};
ghost use Rattle.std.specs.List.{AllByRecursion};
ghost use Rattle.je_pool.specs.Node.{classes_of, IsSummed};
ghost use Rattle.je_pool.specs.Pool.{kept};

use je_base::{Memory, Text};
use je_class::ClassFile;
use je_desc::Summary;

/// A class that is kept, and how other classes see it.
#[derive(Drop)]
pub struct Node {
    pub class: ClassFile,
    pub summary: Summary,
}

impl Node {
    /// The class, with its summary.
    pub fn of(class: ClassFile) -> Result<Node, Memory>
        ensures class { IfOk result (λ node. node.class ≡ class) }
        ensures summed { IfOk result IsSummed }
    {
        let summary = class.summary()?;
        Ok(Node { class, summary })
    }
}

/// The place of the class of this name.
pub fn place_of(nodes: &[Node], name: &Text) -> Option<usize>
    requires { AllByRecursion IsSummed nodes.now }
    ensures kept { option_and_then (slice_get (classes_of nodes.now)) result
        ≡ kept name.now (classes_of nodes.now) }
    ensures within { IfSome result (λ id. id < length (classes_of nodes.now)) }
{
    for id in 0..nodes.len() {
        if nodes[id].summary.name == *name {
            return Some(id);
        }
    }
    None
}
