ghost use Rattle.std.specs.Prelude.{◌≡◌, ◌+◌, ◌≤◌, length};
ghost use Rattle.message.specs.Layout.{u32_at, written};
ghost use Rattle.record.specs.Octets.{le};

// The number of 32 bits at a place.
pub(crate) fn u32_at(octets: &[u8], at: usize) -> u32
    requires { at + 4 ≤ length octets.now }
    ensures { result ≡ u32_at octets.now at }
{
    u32::from_le_bytes(octets[at..at + 4].try_into().unwrap())
}

// Writes a number of 32 bits at a place.
pub(crate) fn put_u32(buffer: &mut [u8], at: usize, x: u32)
    requires { at + 4 ≤ length buffer.old }
    ensures { buffer.new ≡ written buffer.old at (le 4 x) }
{
    buffer[at..at + 4].copy_from_slice(&x.to_le_bytes());
}
