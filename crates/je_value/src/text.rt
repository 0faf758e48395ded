//! Texts as runs of bytes.

ghost use Rattle.std.specs.Prelude.{◌≡◌};
ghost use Rattle.je_base.specs.Text.{is_same_text};

use je_base::Run;

/// Whether two texts are equal.
pub fn is_same(a: &Run, b: &Run) -> bool
    ensures { result ≡ is_same_text a.now b.now }
{
    a.as_slice() == b.as_slice()
}
