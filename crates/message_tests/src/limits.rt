// What parameters are made from: each limit just inside and just outside, and which refusal comes first.
use crate::common::parameters;
use message::making::Settings;
use message::parameters::Parameters;

// A level, a timeout and an error interval, and the number of the refusal, if there is one.
const CASES: [(u8, u32, u16, Option<u8>); 26] = [
    (0, 250, 60, Some(1)),
    (1, 250, 60, None),
    (4, 250, 60, None),
    (5, 250, 60, Some(1)),
    (255, 250, 60, Some(1)),
    (3, 0, 60, Some(2)),
    (3, 1, 60, None),
    (3, 3_600_000, 60, None),
    (3, 3_600_001, 60, Some(2)),
    (3, 4_294_967_295, 60, Some(2)),
    (3, 250, 0, Some(3)),
    (3, 250, 5, Some(3)),
    (3, 250, 6, None),
    (3, 250, 7, Some(3)),
    (3, 250, 59, Some(3)),
    (3, 250, 60, None),
    (3, 250, 61, Some(3)),
    (3, 250, 599, Some(3)),
    (3, 250, 600, None),
    (3, 250, 601, Some(3)),
    (3, 250, 65_535, Some(3)),
    (0, 0, 0, Some(1)),
    (5, 3_600_001, 60, Some(1)),
    (5, 250, 7, Some(1)),
    (1, 0, 7, Some(2)),
    (4, 3_600_001, 601, Some(2)),
];

fn refusal(level: u8, timeout: u32, error_interval: u16) -> Option<u8> {
    let other = parameters();
    let settings = Settings {
        consumer_id: other.consumer_id,
        provider_id: other.provider_id,
        base_id: other.base_id,
        level,
        timeout,
        error_interval,
        operator_ack_necessary: true,
    };
    Some(Parameters::new(settings).err()?.number())
}

#[test]
fn limits_and_order(rt: HostRuntime) {
    for (level, timeout, error_interval, number) in CASES {
        let told = refusal(level, timeout, error_interval);
        assert_eq!(rt; told, number, "{level} {timeout} {error_interval}");
    }
}
