// Rates and litres: the numbers that a line can give, and the text of each.
use record::draw::Draw;
use script::line::{Call, Given, Line};
use script::reading::read_line;
use std::alloc::Global;
use std::test::Fail;

// A number as a line gives it, and as it is printed.
const NUMBERS: [(&str, &str); 18] = [
    ("0", "0x0000000000000000"),
    ("-0", "0x8000000000000000"),
    ("1", "0x3FF0000000000000"),
    ("38.5", "0x4043400000000000"),
    ("-2.25", "0xC002000000000000"),
    ("1e3", "0x408F400000000000"),
    ("25E-1", "0x4004000000000000"),
    ("1.7976931348623157e308", "0x7FEFFFFFFFFFFFFF"),
    ("4.9e-324", "0x0000000000000001"),
    ("1e309", "0x7FF0000000000000"),
    ("-1e309", "0xFFF0000000000000"),
    ("inf", "0x7FF0000000000000"),
    ("-inf", "0xFFF0000000000000"),
    ("nan", "0x7FF8000000000000"),
    ("0x3FF0000000000000", "0x3FF0000000000000"),
    ("0xffefffffffffffff", "0xFFEFFFFFFFFFFFFF"),
    ("0x7FF0000000000000", "0x7FF0000000000000"),
    ("0xABCDEF0123456789", "0xABCDEF0123456789"),
];

const NONE: [&str; 19] = [
    "+1",
    "infinity",
    "-infinity",
    "+inf",
    "Inf",
    "NaN",
    "-nan",
    "0x",
    "0x3FF000000000000",
    "0x03FF0000000000000",
    "0x3FF000000000000G",
    "0X3FF0000000000000",
    "-0x3FF0000000000000",
    "1,5",
    "1.5.2",
    "1e",
    "-",
    "--1",
    "one",
];

fn draw(heap: Global, name: &str, amount: &str) -> Result<Option<Draw>, Fail> {
    let line = format!(in heap; "serve {name} {amount}")?;
    match read_line(heap, 1, line.as_str()) {
        Ok(
            Line::Call {
                call: Call::Serve {
                    given: Given::Draw(draw),
                    ..
                },
            },
        ) => Ok(Some(draw)),
        Ok(_) => Err(Fail::new("no draw order")),
        Err(_) => Ok(None),
    }
}

#[test]
fn numbers(rt: HostRuntime) -> Result<(), Fail> {
    for (amount, bits) in NUMBERS {
        for name in ["run", "preset"] {
            let Some(draw) = draw(rt.alloc(), name, amount)? else {
                return Err(Fail::new(amount));
            };
            let text = format!(in rt.alloc(); "{}", Given::from(draw))?;
            let printed = format!(in rt.alloc(); "{name} {bits}")?;
            assert!(rt; text.as_str() == printed.as_str(), "{}", amount);
        }
    }
    Ok(())
}

#[test]
fn no_numbers(rt: HostRuntime) -> Result<(), Fail> {
    for amount in NONE {
        assert!(rt; draw(rt.alloc(), "run", amount)?.is_none(), "{}", amount);
    }
    Ok(())
}
