//! Bytes that are written to a caller's buffer.

ghost use Rattle.std.specs.Prelude.{◌≡◌, length, min};
ghost use Rattle.turn_c_calls.specs.Buffer.{buffer_filled};

/// Writes as many of these bytes as fit to the start of the buffer, and returns how many these are.
pub fn put(bytes: &[u8], buffer: &mut [u8]) -> usize
    ensures count { result ≡ min (length buffer.old) (length bytes.now) }
    ensures buffer { buffer.new ≡ buffer_filled bytes.now buffer.old }
{
    let count = buffer.len().min(bytes.len());
    let (front, _) = buffer.split_at_mut(count);
    front.copy_from_slice(&bytes[..count]);
    count
}
