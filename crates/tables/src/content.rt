// What a buffer holds, as a line says it.
ghost use Rattle.std.specs.Prelude.{◌≡◌, ◌+◌, ◌*◌, ◌%◌, ◌<◌, length};
ghost use Rattle.tables.specs.Content.{sum_of, zeros?};

fn next(sum: u64, byte: u8) -> u64
    requires { sum < 4294967291 }
    ensures { (result ≡ (sum * 257 + byte + 1) % 4294967291) × (result < 4294967291) }
{
    (sum * 257 + byte as u64 + 1) % 4294967291
}

// A number that tells buffers apart: it begins at 0 and becomes (sum · 257 + byte + 1) mod 4,294,967,291 with each byte.
pub fn sum(bytes: &[u8]) -> u64
    ensures { result ≡ sum_of bytes.now (length bytes.now) }
{
    let mut sum: u64 = 0;
    for byte in bytes {
        sum = next(sum, *byte);
    }
    sum
}

// Whether every byte is 0.
pub fn is_zero(bytes: &[u8]) -> bool
    ensures { result ≡ zeros? bytes.now (length bytes.now) }
{
    bytes.iter().all(|byte| *byte == 0)
}
