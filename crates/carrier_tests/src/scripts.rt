// Scripts: how many codes, which codes, and that a refused script changes nothing.
use crate::bench::{Answer, Bench};
use crate::common::signed;
use carrier::lane::Lane;
use carrier::publishing::Publishing;
use disturber::Disturber;
use disturber::script::Script;

// As many codes as a script takes: pass and lose in turn.
#[rattlefmt::skip]
const LONG: [u8; 64] = [
    0, 1, 0, 1, 0, 1, 0, 1, 0, 1, 0, 1, 0, 1, 0, 1, 0, 1, 0, 1, 0, 1, 0, 1, 0, 1, 0, 1, 0, 1, 0, 1,
    0, 1, 0, 1, 0, 1, 0, 1, 0, 1, 0, 1, 0, 1, 0, 1, 0, 1, 0, 1, 0, 1, 0, 1, 0, 1, 0, 1, 0, 1, 0, 1,
];

// Codes, and the number of their refusal, if they are refused.
const FILLS: [(&[u8], Option<u8>); 6] = [
    (&[1, 1], None),
    (&LONG, None),
    (&[0; 65], Some(6)),
    (&[4], Some(6)),
    (&[1, 2, 3, 4], Some(6)),
    (&[255, 0], Some(6)),
];

// Over a carrier whose message stands it is handed out and lost in turn, and handed out after the last code.
fn alternates(script: Script) -> Answer {
    let mut bench = Bench {
        carrier: Disturber::new(Publishing::new(), script),
    };
    let message = signed(1);
    bench.takes(Lane::Down, &message)?;
    for _ in 0..32 {
        bench.brings(Lane::Down, &message)?;
        bench.is_empty(Lane::Down)?;
    }
    bench.brings(Lane::Down, &message)?;
    bench.brings(Lane::Down, &message)
}

#[test]
fn codes(rt: HostRuntime) {
    let mut script = Script::empty();
    for (codes, number) in FILLS {
        let refusal = script.fill(codes).err();
        let told = refusal.map(|refusal| refusal.number());
        assert_eq!(rt; told, number, "{codes:?}");
    }
    assert_eq!(rt; alternates(script), Ok(()));
}
