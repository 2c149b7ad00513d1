// The signature for a caller in C.
#![tactic(auto)]

ghost use Rattle.std.specs.Prelude.{◌≡◌};
ghost use Rattle.signature.specs.Signature.{signature};

use signature::signature;

// The same for a caller in C: the octets' address, then their number.
#[unsafe(no_mangle)]
pub extern "C" fn selomuvia_signature(octets: &[u8]) -> u32
    ensures { result ≡ signature octets.now }
{
    signature(octets)
}
