//! What a world in memory was told.

ghost use Rattle.std.specs.Prelude.{◌≡◌, IfSome, length};
ghost use Rattle.std.specs.Option.{option_map};
ghost use Rattle.std.specs.List.{AllByRecursion};
ghost use Rattle.std.specs.FinMap.{empty, get};
ghost use Rattle.je_world.specs.Entry.{name_of, kept, known_after, IsFitEntry};

use je_base::Text;
use je_desc::Summary;

/// One thing that a world was told.
#[derive(Debug, Drop)]
pub enum Entry {
    /// Under its name lies this class.
    Class(Summary),
    /// What lies under this name is broken.
    Broken(Text),
}

impl Entry {
    /// The name of which it speaks.
    fn name(&self) -> &Text
        ensures { result.now ≡ name_of self.now }
    {
        match self {
            Entry::Class(summary) => &summary.name,
            Entry::Broken(name) => name,
        }
    }
}

/// The last entry of this name.
pub fn last_of<'a>(entries: &'a [Entry], name: &Text) -> Option<&'a Entry>
    requires { AllByRecursion IsFitEntry entries.now }
    ensures found { option_map (λ entry. kept entry.now) result
        ≡ get (known_after empty entries.now) name.now }
    ensures named { IfSome result (λ entry. name_of entry.now ≡ name.now) }
    ensures fit { IfSome result (λ entry. IsFitEntry entry.now) }
{
    let mut found = None;
    for entry in entries {
        if name == entry.name() {
            found = Some(entry);
        }
    }
    found
}
