ghost use Rattle.std.specs.Prelude.{◌≡◌};
ghost use Rattle.message.specs.Sound.{sound, all_zero};

use signature::signature;

// Does the message have at least 26 octets, and do the last four hold the signature of those before?
pub fn is_sound(message: &[u8]) -> bool
    ensures { result ≡ sound message.now }
{
    match message.split_last_chunk() {
        Some((signed, last)) if message.len() >= 26 => {
            u32::from_le_bytes(*last) == signature(signed)
        }
        _ => false,
    }
}

// Is every octet zero?
pub fn is_all_zero(message: &[u8]) -> bool
    ensures { result ≡ all_zero message.now }
{
    message.iter().all(|octet| *octet == 0)
}
