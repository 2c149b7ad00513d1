use crate::division::divided;
use crate::tally::Tally;
use signature::signature;
use std::io;

// No signature covers more octets.
const MOST: usize = 1521;

// The worked example: the name of a structure in UTF-8 and the numbers of its fields.
const EXAMPLE: [u8; 24] = [
    0x4D, 0x6F, 0x74, 0xC3, 0xB6, 0x72, 0x68, 0x65, 0x61, 0x64, 0x01, 0x00, 0x04, 0x00, 0x00, 0x00,
    0x01, 0x00, 0x00, 0x00, 0x0A, 0x00, 0x00, 0x00,
];

// Signatures of the first so many octets of the stream, made with a stock tool.
const STOCK: [(usize, u32); 10] = [
    (0, 0x0000_0001),
    (1, 0x955D_8FE3),
    (2, 0xA750_7D45),
    (8, 0x5617_AB7B),
    (9, 0xC559_BF1C),
    (31, 0x597E_68C9),
    (32, 0xFE19_C38D),
    (255, 0xA0D2_C876),
    (1520, 0x7A3E_4E5E),
    (1521, 0xAC8F_EDBE),
];

// A stream of octets: a xorshift of 32 bits, of which the lowest eight are taken.
fn stream() -> [u8; MOST] {
    let mut octets = [0; MOST];
    let mut x = 2_463_534_242u32;
    for octet in octets.iter_mut() {
        x ^= x << 13;
        x ^= x >> 17;
        x ^= x << 5;
        *octet = (x & 0xFF) as u8;
    }
    octets
}

pub fn examples(tally: &mut Tally) -> io::Result<()> {
    tally.number(
        &"signature of the worked example",
        0xE2E8_6173,
        signature(&EXAMPLE),
    )?;
    let octets = stream();
    for (length, expected) in STOCK {
        let came = signature(&octets[..length.min(MOST)]);
        let name = format_args!("signature of {length} octets of the stream");
        tally.number(&name, expected, came)?;
    }
    Ok(())
}

// Every length up to 64, and then every fifteenth.
fn is_tried(length: &usize) -> bool {
    *length <= 64 || *length % 15 == 0
}

pub fn divided_twice(tally: &mut Tally) -> io::Result<()> {
    let octets = stream();
    let mut times = 0usize;
    let mut same = true;
    for length in (0..=MOST).filter(is_tried) {
        let message = &octets[..length.min(MOST)];
        same &= signature(message) == divided(message);
        times = times.saturating_add(1);
    }
    tally.agrees("signatures by tables and by long division", times, same)
}
