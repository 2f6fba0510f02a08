//! Numbers of four bytes.
ghost use Rattle.std.specs.Prelude.{◌≡◌, ◌≤◌, MatchResult};

use tb_base::Memory;

// The count in four bytes. One that doesn't fit counts as want of memory, and no other is refused.
pub(crate) fn number(count: usize) -> Result<u32, Memory>
    ensures { MatchResult result (λ n. n ≡ count) (λ _. 4294967296 ≤ count) }
{
    if count > u32::MAX as usize {
        return Err(Memory);
    }
    Ok(count as u32)
}
