// When a request expires, and what follows.
use crate::bench::{calls, publishes};
use crate::steps::Heard::*;
use crate::steps::Sight::*;
use crate::steps::Step::{self, *};
use crate::steps::Told::*;

// A request that waits for just the timeout has not expired, and a response is accepted then. Its record is shown if no
// acknowledgment is necessary.
#[test]
fn timeout_and_hold(rt: HostRuntime) {
    for (necessary, shown) in [(true, Wish), (false, Values(11))] {
        let steps = [
            On(1_000, Started, Blank),
            On(401_000, Nothing, Blank),
            On(401_001, Expired, Blank),
            Serve(11, 0, New(257, 5)),
            On(801_001, Accepted, shown),
        ];
        assert_eq!(rt; publishes(necessary, &steps), None, "{necessary}");
    }
}

// Nothing is fetched at expiry: the late response comes in the cycle after.
const LATE: [Step; 5] = [
    On(0, Started, Blank),
    Serve(11, 0, New(256, 4)),
    On(400_001, Expired, Blank),
    On(400_002, Fault(24), Blank),
    On(400_003, Nothing, Blank),
];

#[test]
fn late_response(rt: HostRuntime) {
    assert_eq!(rt; calls(&LATE), None);
}

// The time of a cycle with enable off counts. Requests 256 and 257 both bear it, as the larger of two times.
const RAN_BACK: [Step; 10] = [
    Off(1_000),
    On(500, Started, Blank),
    Serve(11, 0, New(256, 4)),
    On(999, Expired, Blank),
    On(1_000, Fault(24), Blank),
    On(401_000, Fault(24), Blank),
    On(401_001, Expired, Blank),
    Serve(12, 0, New(258, 5)),
    On(401_002, Accepted, Values(12)),
    On(401_001, Expired, Blank),
];

#[test]
fn readings_that_run_back(rt: HostRuntime) {
    assert_eq!(rt; publishes(false, &RAN_BACK), None);
}
