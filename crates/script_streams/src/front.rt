//! Copying to the front of a buffer.

ghost use Rattle.std.specs.Prelude.{◌≡◌, length, min, take};

/// Copies as many bytes as fit to the front of the buffer, and returns their number.
pub fn copy_front(bytes: &[u8], buf: &mut [u8]) -> usize
    ensures count { result ≡ min (length bytes.now) (length buf.old) }
    ensures front { take result buf.new ≡ take result bytes.now }
{
    let count = bytes.len().min(buf.len());
    buf[..count].copy_from_slice(&bytes[..count]);
    count
}
