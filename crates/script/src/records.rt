use crate::expected::Expected;
use crate::line::Given;
use crate::words::{Words, short_number};
use record::draw::Draw;
use record::meter::Meter;
use std::num::f64_from_bits_with_nan;
use text::number::{integer_of, number_of};

// Does the text begin with a digit, or with a minus and a digit?
fn is_decimal(text: &str) -> bool {
    let digits = text.strip_prefix('-').unwrap_or(text);
    matches!(digits.as_bytes(), [b'0'..=b'9', ..])
}

// 0x and 16 digits are the bits of a number, with two words for the infinities and one for no number.
fn number_in(text: &str) -> Option<f64> {
    match text {
        "inf" => Some(f64::INFINITY),
        "-inf" => Some(f64::NEG_INFINITY),
        // by its bits, since the library's constant promises none
        "nan" => Some(f64_from_bits_with_nan(0x7FF8_0000_0000_0000)),
        _ if text.starts_with("0x") => match text.len() {
            18 => Some(f64_from_bits_with_nan(number_of(text)?)),
            _ => None,
        },
        _ if is_decimal(text) => text.parse::<f64>().ok(),
        _ => None,
    }
}

fn read_amount(words: &mut Words<'_>) -> Result<f64, Expected> {
    words.read(Expected::Amount, number_in)
}

fn read_meter(pulses: &str, words: &mut Words<'_>) -> Result<Meter, Expected> {
    Ok(Meter {
        pulses: short_number(pulses).ok_or(Expected::Record)?,
        centidegrees: words.read(Expected::Temperature, integer_of)?,
        valid: words.one_of(Expected::Validity, [("valid", true), ("invalid", false)])?,
    })
}

// The record that begins with the next word.
pub(crate) fn read_record(words: &mut Words<'_>) -> Result<Given, Expected> {
    match words.word(Expected::Record)? {
        "stop" => Ok(Given::Draw(Draw::Stop)),
        "run" => Ok(Given::Draw(Draw::Run(read_amount(words)?))),
        "preset" => Ok(Given::Draw(Draw::Preset(read_amount(words)?))),
        pulses => Ok(Given::Meter(read_meter(pulses, words)?)),
    }
}
