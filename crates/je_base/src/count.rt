//! Counts that stand still at the last value of a `u64`.

ghost use Rattle.std.specs.Prelude.{◌≡◌};
ghost use Rattle.je_base.specs.Count.{raised};

/// One more, or the last value where the count stands there.
pub fn raised(count: u64) -> u64
    ensures { result ≡ raised count }
{
    count.saturating_add(1)
}
