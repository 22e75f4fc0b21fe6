ghost use Rattle.std.specs.Prelude.{◌≡◌, length, min, take};

/// Copies as many bytes as there are and as fit, and answers how many: what a read of a source in memory comes to.
pub fn copy_prefix(from: &[u8], into: &mut [u8]) -> usize
    ensures count { result ≡ min (length into.old) (length from.now) }
    ensures bytes { take result into.new ≡ take result from.now }
{
    let count = into.len().min(from.len());
    into[..count].copy_from_slice(&from[..count]);
    count
}
