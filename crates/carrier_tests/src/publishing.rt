// The publishing carrier.
use crate::bench::{Answer, Bench};
use crate::common::numbered;
use carrier::lane::Lane;
use carrier::publishing::Publishing;

// The latest message stands and is shown again, and the other lane is empty.
fn stands(lane: Lane, other: Lane) -> Answer {
    let mut bench = Bench {
        carrier: Publishing::new(),
    };
    bench.is_empty(lane)?;
    for k in 0..3 {
        bench.takes(lane, &numbered(lane, k))?;
        bench.brings(lane, &numbered(lane, k))?;
        bench.brings(lane, &numbered(lane, k))?;
    }
    bench.is_empty(other)?;
    bench.whole(lane, other)?;
    bench.refusals(lane)
}

#[test]
fn published(rt: HostRuntime) {
    assert_eq!(rt; stands(Lane::Up, Lane::Down), Ok(()));
    assert_eq!(rt; stands(Lane::Down, Lane::Up), Ok(()));
}
