//! The checksum of a frame.
ghost use Rattle.std.specs.Prelude.{◌≡◌, ◌%◌, sum};

/// The sum of the bytes modulo 256 (FIX 4.4 Volume 1, CheckSum).
pub fn sum256(bytes: &[u8]) -> u8
    ensures { result ≡ sum bytes.now % 256 }
{
    let mut total = 0u8;
    for byte in bytes {
        total = total.wrapping_add(*byte);
    }
    total
}
