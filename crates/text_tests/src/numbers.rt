use text::number::{integer_of, number_of};

#[test]
fn numbers(rt: HostRuntime) {
    for (text, number) in [
        ("0", 0),
        ("0042", 42),
        ("18446744073709551615", u64::MAX),
        ("0x0", 0),
        ("0xaBcDeF", 0xAB_CDEF),
        ("0x0000ffffffffffffffff", u64::MAX),
    ] {
        assert_eq!(rt; number_of(text), Some(number), "{}", text);
    }
}

#[test]
fn no_numbers(rt: HostRuntime) {
    for text in [
        "",
        "18446744073709551616",
        "99999999999999999999999999",
        "0x10000000000000000",
        "0x",
        "0xg",
        "0X1",
        "00x1",
        "x1",
        "1a",
        "+1",
        "-1",
        " 1",
        "1 ",
        "1_0",
        "٣",
    ] {
        assert_eq!(rt; number_of(text), None, "{}", text);
    }
}

#[test]
fn integers(rt: HostRuntime) {
    for (text, integer) in [
        ("0", 0),
        ("-0", 0),
        ("7", 7),
        ("-7", -7),
        ("32767", i16::MAX),
        ("-32768", i16::MIN),
        ("-00032768", i16::MIN),
    ] {
        assert_eq!(rt; integer_of(text), Some(integer), "{}", text);
    }
}

#[test]
fn no_integers(rt: HostRuntime) {
    for text in [
        "",
        "-",
        "+1",
        "--1",
        "- 1",
        "1-",
        "-+1",
        "0x1",
        "-0x1",
        "a",
        "32768",
        "-32769",
        "65536",
        "18446744073709551616",
        "-18446744073709551616",
    ] {
        assert_eq!(rt; integer_of(text), None, "{}", text);
    }
}
