//! Moving bytes from one slice to another of another length.
ghost use Rattle.std.specs.Prelude.{◌≡◌, length, take, min};

/// Copies the front of `from`, as much as fits, to the front of `out`, and tells how many bytes
/// that is.
pub fn copy_front(from: &[u8], out: &mut [u8]) -> usize
    ensures count { result ≡ min (length from.now) (length out.old) }
    ensures bytes { take result out.new ≡ take result from.now }
{
    let count = from.len().min(out.len());
    out[..count].copy_from_slice(&from[..count]);
    count
}
