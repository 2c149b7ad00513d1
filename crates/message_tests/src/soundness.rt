// Messages that are sound, and messages of zeros.
use crate::common::{flip, sign};
use message::response::LONGEST;
use message::sound::{is_all_zero, is_sound};

// Is a message of so many octets sound that was signed and then changed at these places?
fn signed(length: usize, places: &[usize]) -> bool {
    let mut buffer = [0x5A; LONGEST];
    let Some(message) = buffer.get_mut(..length) else {
        return false;
    };
    sign(message);
    flip(message, places);
    is_sound(message)
}

// A length, the places of octets that are turned, and whether the message is sound.
const CASES: [(usize, &[usize], bool); 11] = [
    (0, &[], false),
    (4, &[], false),
    (25, &[], false),
    (26, &[], true),
    (26, &[0], false),
    (26, &[21], false),
    (26, &[22], false),
    (26, &[25], false),
    (27, &[], true),
    (LONGEST, &[], true),
    (LONGEST, &[700], false),
];

#[test]
fn shortest_and_longest(rt: HostRuntime) {
    for (length, places, sound) in CASES {
        assert_eq!(rt; signed(length, places), sound, "{length} {places:?}");
    }
}

#[test]
fn zeros(rt: HostRuntime) {
    assert!(rt;
        is_all_zero(&[])
            && is_all_zero(&[0; LONGEST])
            && !is_all_zero(&[1, 0, 0, 0])
            && !is_all_zero(&[0, 0, 0, 0x80])
    );
}
