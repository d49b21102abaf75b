ghost use Rattle.std.specs.Prelude.{◌≡◌, ◌+◌, ◌<◌, ◌≤◌, ◌++◌, length, take, drop, slice_index};
ghost use Rattle.sim_hosts.specs.Bytes.{bytes_of, number_at};

/// Returns the byte at an offset, or 0 if there is none.
pub fn byte_at(bytes: &[u8], offset: usize) -> u8
    ensures { result ≡ slice_index bytes.now offset }
{
    if offset < bytes.len() {
        bytes[offset]
    } else {
        0
    }
}

/// Returns the number in the 8 bytes from an offset on, low byte first. Missing bytes count as 0.
#[tactic(auto, unfolding(crate::specs::Bytes::number_at))]
pub fn number_at(bytes: &[u8], offset: usize) -> u64
    requires { offset ≤ 4096 }
    ensures { result ≡ number_at bytes.now offset }
{
    u64::from_le_bytes([
        byte_at(bytes, offset),
        byte_at(bytes, offset + 1),
        byte_at(bytes, offset + 2),
        byte_at(bytes, offset + 3),
        byte_at(bytes, offset + 4),
        byte_at(bytes, offset + 5),
        byte_at(bytes, offset + 6),
        byte_at(bytes, offset + 7),
    ])
}

/// Writes a number into 8 bytes from an offset on, low byte first.
pub fn put_number(bytes: &mut [u8], offset: usize, number: u64)
    requires low { offset ≤ 4096 }
    requires room { offset + 8 ≤ length bytes.old }
    ensures { bytes.new ≡ take offset bytes.old ++ bytes_of number ++ drop (offset + 8) bytes.old }
{
    bytes[offset..offset + 8].copy_from_slice(&number.to_le_bytes());
}
