// Lines at the limits of their numbers, blank lines, and options in any order.
use consumer::inputs::Inputs;
use message::flags::ResponseFlags;
use message::making::Settings;
use record::meter::Meter;
use script::line::{Call, Given, Line, Network, Setting};
use script::reading::read_line;
use std::alloc::Global;
use std::process::Abort;
use std::test::Fail;

fn read(heap: Global, text: &str) -> Result<Line, Fail> {
    Ok(read_line(heap, 1, text)?)
}

#[test]
fn nothing(rt: HostRuntime) -> Result<(), Fail> {
    for text in ["", "   ", "\t", "#", "# kind", "  #kind meter", "#kind"] {
        assert!(rt;
            matches!(read(rt.alloc(), text)?, Line::Nothing),
            "{}",
            text
        );
    }
    Ok(())
}

fn settings(heap: Global, text: &str) -> Result<Settings, Fail> {
    match read(heap, text)? {
        Line::Setting {
            setting: Setting::Parameters { settings },
        } => Ok(settings),
        _ => Err(Fail::new("no parameters")),
    }
}

// Level, timeout and interval, and what they count as.
const WIDE: [(&str, (u8, u32, u16)); 4] = [
    ("level=4 timeout=3600000 interval=600", (4, 3_600_000, 600)),
    (
        "level=0xFF timeout=0xFFFFFFFF interval=0xFFFF",
        (255, 4_294_967_295, 65_535),
    ),
    (
        "level=256 timeout=4294967296 interval=65536",
        (255, 4_294_967_295, 65_535),
    ),
    (
        "level=18446744073709551615 timeout=18446744073709551615 interval=18446744073709551615",
        (255, 4_294_967_295, 65_535),
    ),
];

#[test]
fn wide_settings(rt: HostRuntime) -> Result<(), Fail> {
    for (part, (level, timeout, interval)) in WIDE {
        let text = format!(in rt.alloc();
            " parameters consumer=0xffffffff provider=0 base=0,1,0x2,4294967295 {part} acknowledgment=yes "
        )?;
        let read = settings(rt.alloc(), text.as_str())?;
        assert_eq!(rt; read.level, level);
        assert_eq!(rt; read.timeout, timeout);
        assert_eq!(rt; read.error_interval, interval);
        assert_eq!(rt; read.consumer_id, u32::MAX);
        assert_eq!(rt; read.base_id.w4, u32::MAX);
        assert!(rt; read.operator_ack_necessary);
    }
    Ok(())
}

#[test]
fn memories_and_codes(rt: HostRuntime) -> Result<(), Fail> {
    let line = read(rt.alloc(), "carrier calling 0 18446744073709551615")?;
    assert!(rt;
        matches!(
            line,
            Line::Setting {
                setting: Setting::Carrier {
                    network: Network::Calling {
                        up: 0,
                        down: u64::MAX
                    }
                }
            }
        )
    );
    match read(rt.alloc(), "disturb 0 3 255 256 18446744073709551615")? {
        Line::Setting {
            setting: Setting::Disturb { codes },
        } => {
            assert!(rt; codes.as_slice() == [0, 3, 255, 255, 255].as_slice());
            Ok(())
        },
        _ => Err(Fail::new("no codes")),
    }
}

fn cycle(heap: Global, text: &str) -> Result<(Inputs, u64), Fail> {
    match read(heap, text)? {
        Line::Call {
            call: Call::Cycle { inputs, buffer },
        } => Ok((inputs, buffer)),
        _ => Err(Fail::new("no cycle")),
    }
}

fn serve(heap: Global, text: &str) -> Result<(Meter, ResponseFlags), Fail> {
    match read(heap, text)? {
        Line::Call {
            call: Call::Serve {
                given: Given::Meter(meter),
                flags,
                buffer: 1525,
            },
        } => Ok((meter, flags)),
        _ => Err(Fail::new("no serve")),
    }
}

// A call's options in any order, and the buffer that is lent.
#[test]
fn options(rt: HostRuntime) -> Result<(), Fail> {
    for (text, octets) in [
        ("cycle 0xFFFFFFFFFFFFFFFF enable ack", 1525),
        ("cycle 18446744073709551615 enable ack buffer=7", 7),
        ("cycle 18446744073709551615 enable buffer=0 ack", 0),
    ] {
        let (inputs, buffer) = cycle(rt.alloc(), text)?;
        assert!(rt;
            inputs.reading == u64::MAX && inputs.enable && inputs.ack,
            "{}",
            text
        );
        assert_eq!(rt; buffer, octets, "{}", text);
    }
    for (text, octet) in [
        ("serve 4294967295 -32768 invalid", 0),
        ("serve 0xFFFFFFFF -32768 invalid operator-ack", 1),
        (
            "serve 4294967295 -32768 invalid activate-fsv buffer=1525",
            2,
        ),
        (
            "serve 4294967295 -32768 invalid test-mode activate-fsv operator-ack",
            7,
        ),
    ] {
        let (meter, flags) = serve(rt.alloc(), text)?;
        assert!(rt; meter.pulses == u32::MAX && meter.centidegrees == i16::MIN && !meter.valid);
        assert_eq!(rt; u8::from(flags), octet, "{}", text);
    }
    Ok(())
}

fn check_octets(rt: &impl Abort, heap: Global, text: &str, expected: &[u8]) -> Result<(), Fail> {
    match read(heap, text)? {
        Line::Call {
            call: Call::Place { octets, .. },
        } => {
            assert!(rt; octets.as_slice() == expected, "{}", text);
            Ok(())
        },
        _ => Err(Fail::new("no place")),
    }
}

#[test]
fn octets(rt: HostRuntime) -> Result<(), Fail> {
    check_octets(&rt, rt.alloc(), "place up", &[])?;
    check_octets(&rt, rt.alloc(), "place down 00fFaB", &[0, 255, 171])
}
