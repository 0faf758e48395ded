//! The words of the command line.

ghost use Rattle.std.specs.Prelude.{ℕ, List, IfSome, IfNone};
ghost use Rattle.je_session.specs.Texts.{texts};
ghost use Rattle.je_session.specs.Forms.{IsLine};

/// The path of the script, if the words are one that does not begin with `-`.
pub fn script_path(words: &[String]) -> Option<&str>
    ensures one { IfSome result (λ path. IsLine (texts words.now) path.now) }
    ensures none { IfNone result ((path : List ℕ) → IsLine (texts words.now) path → ⊥) }
{
    match words {
        [word] if !word.as_bytes().starts_with(b"-") => Some(word.as_str()),
        _ => None,
    }
}
