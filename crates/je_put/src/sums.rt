//! Sums of lengths. One that no vector can have is answered as want of memory.

ghost use Rattle.std.specs.Prelude.{◌≡◌, ◌+◌, IfOk};

use je_base::Memory;

/// The sum of two lengths.
///
/// # Errors
///
/// `Memory`: the sum is no length.
pub(crate) fn sum(a: usize, b: usize) -> Result<usize, Memory>
    ensures { IfOk result (λ n. n ≡ a + b) }
{
    let n = a.checked_add(b).ok_or(Memory)?;
    Ok(n)
}

/// The index behind so many instructions.
///
/// # Errors
///
/// `Memory`: the index is past the greatest one.
pub(crate) fn index_behind(at: u32, count: usize) -> Result<u32, Memory>
    ensures { IfOk result (λ n. n ≡ at + count) }
{
    let Ok(count) = u32::try_from(count) else {
        return Err(Memory);
    };
    let n = at.checked_add(count).ok_or(Memory)?;
    Ok(n)
}
