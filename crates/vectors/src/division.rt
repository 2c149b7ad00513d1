// The signature by long division of a stream of bits, with no register of its own and no table.
#[derive(Clone, Copy)]
pub struct Division {
    // the last bits of the remainder so far; with the bit that comes next there are 33
    window: u64,
    // what is left of the start value, which is added to the first 32 bits
    start: u32,
}

// The generator with its term of degree 32.
const DIVISOR: u64 = 0x1_F4AC_FB13;

impl Division {
    fn enter(&mut self, bit: u64) {
        let first = u64::from(self.start >> 31);
        self.start <<= 1;
        let window = (self.window << 1) | (bit ^ first);
        self.window = if window & 0x1_0000_0000 == 0 {
            window
        } else {
            window ^ DIVISOR
        };
    }
}

// The octets enter from the last to the first, then 32 zero bits.
pub fn divided(octets: &[u8]) -> u32 {
    let mut division = Division {
        window: 0,
        start: 1,
    };
    for octet in octets.iter().rev() {
        for place in (0..8u32).rev() {
            division.enter(u64::from((*octet >> place) & 1));
        }
    }
    for _ in 0..32u32 {
        division.enter(0);
    }
    let remainder = (division.window & 0xFFFF_FFFF) as u32;
    remainder.max(1)
}
