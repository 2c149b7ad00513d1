// What is said of a line that a script may not have.
use script::reading::read_line;
use std::alloc::Global;
use std::process::Abort;
use std::test::Fail;

// A line, and what was expected.
type Bad = (&'static str, &'static str);

const NAMES: &str = "kind, parameters, carrier, disturb, link, cycle, serve or place";

const SETTINGS: [Bad; 12] = [
    ("kinds meter", NAMES),
    ("Kind meter", NAMES),
    ("kind", "meter or draw"),
    ("kind litre", "meter or draw"),
    ("kind meter draw", "the end of the line"),
    ("carrier", "publishing or calling"),
    ("carrier pigeon", "publishing or calling"),
    ("carrier publishing 1536", "the end of the line"),
    (
        "carrier calling 1536",
        "calling UP DOWN, the octets of two memories",
    ),
    (
        "carrier calling up 1536",
        "calling UP DOWN, the octets of two memories",
    ),
    ("carrier calling 1536 1536 1536", "the end of the line"),
    ("disturb 0 one 2", "numbers only"),
];

const PARAMETERS: [Bad; 13] = [
    ("parameters", "consumer=N, a number of 32 bits"),
    ("parameters provider=1", "consumer=N, a number of 32 bits"),
    (
        "parameters consumer=4294967296",
        "consumer=N, a number of 32 bits",
    ),
    (
        "parameters consumer=1 provider=-1",
        "provider=N, a number of 32 bits",
    ),
    (
        "parameters consumer=1 provider=1 base=1,2,3",
        "base=N,N,N,N, each a number of 32 bits",
    ),
    (
        "parameters consumer=1 provider=1 base=1,2,3,4,5",
        "base=N,N,N,N, each a number of 32 bits",
    ),
    (
        "parameters consumer=1 provider=1 base=1,2,3,0x100000000",
        "base=N,N,N,N, each a number of 32 bits",
    ),
    (
        "parameters consumer=1 provider=1 base=1,2,3,4 timeout=50",
        "level=N",
    ),
    (
        "parameters consumer=1 provider=1 base=1,2,3,4 level=18446744073709551616",
        "level=N",
    ),
    (
        "parameters consumer=1 provider=1 base=1,2,3,4 level=3 timeout=",
        "timeout=N",
    ),
    (
        "parameters consumer=1 provider=1 base=1,2,3,4 level=3 timeout=50 interval=six",
        "interval=N",
    ),
    (
        "parameters consumer=1 provider=1 base=1,2,3,4 level=3 timeout=50 interval=6 acknowledgment=maybe",
        "acknowledgment=yes or acknowledgment=no",
    ),
    (
        "parameters consumer=1 provider=1 base=1,2,3,4 level=3 timeout=50 interval=6 acknowledgment=no now",
        "the end of the line",
    ),
];

const CALLS: [Bad; 18] = [
    ("link", "start=N, a number of 32 bits"),
    ("link 256", "start=N, a number of 32 bits"),
    ("link start=4294967296", "start=N, a number of 32 bits"),
    ("link start=256 again", "the end of the line"),
    ("cycle", "a clock reading, a number of 64 bits"),
    (
        "cycle 18446744073709551616 enable",
        "a clock reading, a number of 64 bits",
    ),
    ("cycle 10", "enable or disable"),
    ("cycle 10 on", "enable or disable"),
    (
        "cycle 10 enable acknowledge",
        "ack or buffer=N, each at most once",
    ),
    (
        "cycle 10 enable ack ack",
        "ack or buffer=N, each at most once",
    ),
    (
        "cycle 10 enable buffer=1 buffer=1",
        "ack or buffer=N, each at most once",
    ),
    (
        "cycle 10 enable buffer=",
        "ack or buffer=N, each at most once",
    ),
    ("place", "up or down"),
    ("place left 00", "up or down"),
    ("place up 0", "pairs of hexadecimal digits"),
    ("place up 0x00", "pairs of hexadecimal digits"),
    ("place down 00 00", "the end of the line"),
    ("place down -1", "pairs of hexadecimal digits"),
];

const SERVES: [Bad; 13] = [
    ("serve", "a record: pulses of 32 bits, stop, run or preset"),
    (
        "serve walk",
        "a record: pulses of 32 bits, stop, run or preset",
    ),
    (
        "serve 4294967296 0 valid",
        "a record: pulses of 32 bits, stop, run or preset",
    ),
    ("serve 0", "a temperature from -32768 to 32767"),
    ("serve 0 32768 valid", "a temperature from -32768 to 32767"),
    ("serve 0 -32769 valid", "a temperature from -32768 to 32767"),
    ("serve 0 0", "valid or invalid"),
    ("serve 0 0 VALID", "valid or invalid"),
    (
        "serve run",
        "a decimal number, 0x and 16 digits, inf, -inf or nan",
    ),
    (
        "serve stop now",
        "operator-ack, activate-fsv, test-mode or buffer=N, each at most once",
    ),
    (
        "serve stop test-mode test-mode",
        "operator-ack, activate-fsv, test-mode or buffer=N, each at most once",
    ),
    (
        "serve 0 0 valid ack",
        "operator-ack, activate-fsv, test-mode or buffer=N, each at most once",
    ),
    (
        "serve 0 0 valid buffer=1525 operator-ack buffer=1525",
        "operator-ack, activate-fsv, test-mode or buffer=N, each at most once",
    ),
];

fn check_bad(rt: &impl Abort, heap: Global, (line, expected): Bad) -> Result<(), Fail> {
    let Err(bad) = read_line(heap, 12, line) else {
        return Err(Fail::new("the line was read"));
    };
    let said = format!(in heap; "{bad}")?;
    let whole = format!(in heap; "line 12: expected {expected}")?;
    assert!(rt; said.as_str() == whole.as_str(), "{line}");
    Ok(())
}

fn check_all(rt: &impl Abort, heap: Global, table: &[Bad]) -> Result<(), Fail> {
    for bad in table {
        check_bad(rt, heap, *bad)?;
    }
    Ok(())
}

#[test]
fn settings(rt: HostRuntime) -> Result<(), Fail> {
    check_all(&rt, rt.alloc(), &SETTINGS)?;
    check_all(&rt, rt.alloc(), &PARAMETERS)
}

#[test]
fn calls(rt: HostRuntime) -> Result<(), Fail> {
    check_all(&rt, rt.alloc(), &CALLS)?;
    check_all(&rt, rt.alloc(), &SERVES)
}
