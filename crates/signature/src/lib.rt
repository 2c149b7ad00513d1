#![tactic(auto)]

ghost use Rattle.std.specs.Prelude.{◌≡◌, ◌+◌, ◌*◌, ◌^◌, ◌<◌, bit_xor};
ghost use Rattle.signature.specs.Signature.{bit_steps, octet_step, entered, remainder, signature};

mod rows;

use rows::ROWS;

// The remainder of one octet that `table` zero octets follow.
fn row(table: usize, octet: u8) -> u32
    requires { table < 8 }
    ensures { result ≡ bit_steps (8 * (table + 1)) (octet * 2 ^ 24) }
{
    ROWS[table][octet as usize]
}

// One octet more.
fn one(register: u32, octet: u8) -> u32
    ensures { result ≡ octet_step register octet }
{
    row(0, (register >> 24) as u8 ^ octet) ^ (register << 8)
}

// Four octets more, as a number whose highest octet enters first, and then as many zero octets as TABLE says.
fn four<const TABLE: usize>(register: u32, word: u32) -> u32
    requires { TABLE < 5 }
    ensures { result ≡ bit_steps (8 * (TABLE + 4)) (bit_xor register word) }
{
    let [a, b, c, d] = (register ^ word).to_le_bytes();
    row(TABLE + 3, d) ^ (row(TABLE + 2, c) ^ (row(TABLE + 1, b) ^ row(TABLE, a)))
}

// Eight octets more, the last of them first. The rows that do not wait for the register come first.
fn eight(register: u32, octets: &[u8; 8]) -> u32
    ensures { result ≡ entered register octets.now }
{
    let [a, b, c, d, e, f, g, h] = *octets;
    let low = u32::from_le_bytes([a, b, c, d]);
    let high = u32::from_le_bytes([e, f, g, h]);
    four::<0>(0, low) ^ four::<4>(register, high)
}

// What is left in the register after all octets.
fn remainder(octets: &[u8]) -> u32
    ensures { result ≡ remainder octets.now }
{
    let (lowest, eights) = octets.as_rchunks::<8>();
    let register = eights.iter().rev().fold(1, eight);
    lowest.iter().rev().copied().fold(register, one)
}

// The signature of any octets.
pub fn signature(octets: &[u8]) -> u32
    ensures { result ≡ signature octets.now }
{
    let register = remainder(octets);
    if register == 0 { 1 } else { register }
}
