// The calling carrier: over memories that are whole slots, and over others.
use crate::common::{BLANK, is_blank};
use crate::disturbing::{CODES, CODES_ROWS, KEEPING, KEEPING_ROWS, follows, uses};
use crate::lanes::{both, brim, wrap};
use calling::Calling;
use calling::memory::{SLOT, check_memory};

#[test]
fn filled(rt: HostRuntime) {
    let answer = brim(
        Calling::new(&mut [BLANK; SLOT], &mut [BLANK; 16 * SLOT]),
        1,
        16,
    );
    assert_eq!(rt; answer, Ok(()));
    let answer = brim(
        Calling::new(&mut [BLANK; 16 * SLOT], &mut [BLANK; SLOT]),
        16,
        1,
    );
    assert_eq!(rt; answer, Ok(()));
}

#[test]
fn wrapped(rt: HostRuntime) {
    let answer = wrap(Calling::new(&mut [BLANK; 3 * SLOT], &mut [BLANK; 3 * SLOT]));
    assert_eq!(rt; answer, Ok(()));
}

#[test]
fn whole_and_refused(rt: HostRuntime) {
    let answer = both(
        Calling::new(&mut [BLANK; SLOT], &mut [BLANK; 2 * SLOT]),
        |bench, lane, other| bench.whole(lane, other),
    );
    assert_eq!(rt; answer, Ok(()));
    let answer = both(
        Calling::new(&mut [BLANK; SLOT], &mut [BLANK; 2 * SLOT]),
        |bench, lane, _| bench.refusals(lane),
    );
    assert_eq!(rt; answer, Ok(()));
}

#[test]
fn disturbed(rt: HostRuntime) {
    let answer = follows(
        Calling::new(&mut [BLANK; SLOT], &mut [BLANK; 2 * SLOT]),
        &CODES,
        &CODES_ROWS,
    );
    assert_eq!(rt; answer, Ok(()));
    let answer = follows(
        Calling::new(&mut [BLANK; SLOT], &mut [BLANK; 2 * SLOT]),
        &KEEPING,
        &KEEPING_ROWS,
    );
    assert_eq!(rt; answer, Ok(()));
    let answer = uses(Calling::new(&mut [BLANK; SLOT], &mut [BLANK; 2 * SLOT]));
    assert_eq!(rt; answer, Ok(()));
}

// One of the two memories is not whole slots; neither is written.
#[test]
fn bad_memories(rt: HostRuntime) {
    for bad in [0, 1, SLOT - 1, SLOT + 1, 17 * SLOT] {
        for (up, down) in [(bad, SLOT), (SLOT, bad)] {
            let mut up_memory = [BLANK; 17 * SLOT];
            let mut down_memory = [BLANK; 17 * SLOT];
            let carrier = Calling::new(&mut up_memory[..up], &mut down_memory[..down]);
            let answer = both(carrier, |bench, lane, _| bench.nothing(lane));
            assert_eq!(rt; answer, Ok(()), "{up} {down}");
            let blank = is_blank(&up_memory) && is_blank(&down_memory);
            assert!(rt; blank, "{up} {down}");
        }
    }
}

// A memory of so many octets, and the number of its refusal, if it cannot be a lane.
const MEMORIES: [(usize, Option<u8>); 7] = [
    (0, Some(5)),
    (SLOT - 1, Some(5)),
    (SLOT, None),
    (SLOT + 1, Some(5)),
    (16 * SLOT, None),
    (16 * SLOT + 1, Some(5)),
    (17 * SLOT, Some(5)),
];

#[test]
fn memories(rt: HostRuntime) {
    let all = [BLANK; 17 * SLOT];
    for (octets, number) in MEMORIES {
        let refusal = check_memory(&all[..octets]).err();
        assert_eq!(rt; refusal.map(|refusal| refusal.number()), number, "{octets}");
    }
}
