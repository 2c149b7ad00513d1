// Repeated faults, holds, acknowledgment, and cycles with enable off.
use crate::bench::{calls, held, publishes};
use crate::steps::Heard::*;
use crate::steps::Sight::*;
use crate::steps::Step::{self, *};
use crate::steps::Told::*;

// A second fault no more than 360,000 milliseconds after the first shows substitutes; a third is counted from the second.
#[test]
fn interval(rt: HostRuntime) {
    for (second, shown) in [(20, Blank), (360_020, Blank), (360_021, Values(11))] {
        let steps = [
            On(0, Started, Blank),
            Serve(11, 0, New(256, 4)),
            On(10, Accepted, Values(11)),
            Down(999, None),
            On(20, Fault(24), Values(11)),
            On(second, Fault(24), shown),
            On(360_030, Fault(24), Blank),
        ];
        assert_eq!(rt; publishes(false, &steps), None, "{second}");
    }
}

// A repeated fault ends the wish, and it comes again with the next response. With the edge the record is shown.
const EDGE: [Step; 9] = [
    Down(999, None),
    On(50, Fault(24), Blank),
    Serve(13, 0, New(258, 7)),
    On(60, Accepted, Wish),
    On(70, Ignored, Wish),
    Serve(14, 0, New(259, 7)),
    Ack(80, Accepted, Values(14)),
    Serve(15, 0, New(260, 0)),
    On(90, Accepted, Values(15)),
];

// Without a response the edge ends hold and wish, and the next record is shown. The input of a refused cycle does not count.
const EDGE_IGNORED: [Step; 5] = [
    Short(50),
    Ack(60, Ignored, Blank),
    On(70, Ignored, Blank),
    Serve(13, 0, New(258, 7)),
    On(80, Accepted, Values(13)),
];

// The same where nothing comes, under the hold of a reading that ran back.
const EDGE_NOTHING: [Step; 9] = [
    On(10, Started, Blank),
    Serve(11, 0, New(256, 4)),
    On(5, Expired, Blank),
    On(20, Fault(24), Blank),
    Serve(12, 0, New(257, 5)),
    On(30, Accepted, Wish),
    Ack(40, Nothing, Blank),
    Serve(13, 0, New(258, 7)),
    On(50, Accepted, Values(13)),
];

#[test]
fn edges(rt: HostRuntime) {
    assert_eq!(rt; held(&EDGE), None);
    assert_eq!(rt; held(&EDGE_IGNORED), None);
    assert_eq!(rt; calls(&EDGE_NOTHING), None);
}

// The edge comes with a fault that is no repeated one: it ends the hold of an expiry all the same.
const EDGE_FAULT: [Step; 8] = [
    On(0, Started, Blank),
    On(400_001, Expired, Blank),
    Serve(11, 0, New(257, 5)),
    On(400_010, Accepted, Wish),
    Down(999, None),
    Ack(400_020, Fault(24), Blank),
    Serve(12, 0, New(258, 6)),
    On(400_030, Accepted, Values(12)),
];

// The edge comes with an expiry after which no acknowledgment is necessary, so there is no hold.
const EDGE_EXPIRED: [Step; 3] = [
    Ack(400_041, Expired, Blank),
    Serve(13, 0, New(259, 5)),
    On(400_050, Accepted, Values(13)),
];

#[test]
fn edges_at_failures(rt: HostRuntime) {
    assert_eq!(rt; publishes(true, &EDGE_FAULT), None);
    assert_eq!(rt; held(&EDGE_EXPIRED), None);
}

// A repeated fault in the cycle of the edge holds again; then the input stays on, which is no edge.
const HELD_ON: [Step; 10] = [
    Down(999, None),
    Ack(50, Fault(24), Blank),
    Serve(13, 0, New(258, 7)),
    Ack(60, Accepted, Wish),
    Serve(14, 0, New(259, 7)),
    Ack(70, Accepted, Wish),
    Serve(15, 0, New(260, 6)),
    On(80, Accepted, Wish),
    Serve(16, 0, New(261, 6)),
    Ack(90, Accepted, Values(16)),
];

// While the provider asks for substitutes there is no wish, and the input without it is no edge.
const ASKED: [Step; 6] = [
    Serve(13, 2, New(258, 7)),
    On(50, Accepted, Blank),
    Serve(14, 5, New(259, 4)),
    Ack(60, Accepted, WishAndFlags),
    Serve(15, 0, New(260, 6)),
    On(70, Accepted, Wish),
];

#[test]
fn no_edges(rt: HostRuntime) {
    assert_eq!(rt; held(&HELD_ON), None);
    assert_eq!(rt; held(&ASKED), None);
}

// The wish is gone after a cycle with enable off, so the input is no edge; the hold is not gone.
const OFF_HELD: [Step; 6] = [
    Off(50),
    Ack(60, Started, Blank),
    Serve(13, 0, New(259, 4)),
    On(70, Accepted, Wish),
    Serve(14, 0, New(260, 6)),
    Ack(80, Accepted, Values(14)),
];

// Request 257 is withdrawn and its response foreign. Request 258 tells of the fault at 20, which makes that at 50 a repeated one.
const OFF_FAULT: [Step; 12] = [
    On(0, Started, Blank),
    Serve(11, 0, New(256, 4)),
    On(10, Accepted, Values(11)),
    Down(999, None),
    On(20, Fault(24), Values(11)),
    Serve(12, 0, New(257, 0)),
    Off(30),
    Off(35),
    On(40, Started, Blank),
    On(50, Fault(24), Blank),
    Serve(13, 0, New(258, 5)),
    On(60, Accepted, Wish),
];

#[test]
fn enable_off(rt: HostRuntime) {
    assert_eq!(rt; held(&OFF_HELD), None);
    assert_eq!(rt; publishes(false, &OFF_FAULT), None);
}
