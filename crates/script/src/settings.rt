use crate::expected::{Expected, LineFault};
use crate::line::{Kind, Network, Setting};
use crate::narrow::WideSettings;
use crate::words::{Words, one_of, short_number};
use message::making::Settings;
use message::parameters::BaseId;
use std::alloc::Global;
use text::number::number_of;

pub(crate) fn read_kind(mut words: Words<'_>) -> Result<Setting, Expected> {
    let kind = words.one_of(
        Expected::KindName,
        [("meter", Kind::Meter), ("draw", Kind::Draw)],
    )?;
    words.end()?;
    Ok(Setting::Kind { kind })
}

fn base_of(text: &str) -> Option<(&str, &str, &str, &str)> {
    let (w1, rest) = text.split_once(',')?;
    let (w2, rest) = rest.split_once(',')?;
    let (w3, w4) = rest.split_once(',')?;
    Some((w1, w2, w3, w4))
}

fn base(text: &str) -> Option<BaseId> {
    let (w1, w2, w3, w4) = base_of(text)?;
    Some(BaseId::new(
        short_number(w1)?,
        short_number(w2)?,
        short_number(w3)?,
        short_number(w4)?,
    ))
}

fn yes_or_no(text: &str) -> Option<bool> {
    one_of(text, [("yes", true), ("no", false)])
}

pub(crate) fn read_parameters(mut words: Words<'_>) -> Result<Setting, Expected> {
    let wide = WideSettings {
        consumer_id: words.value("consumer=", Expected::Consumer, short_number)?,
        provider_id: words.value("provider=", Expected::Provider, short_number)?,
        base_id: words.value("base=", Expected::Base, base)?,
        level: words.value("level=", Expected::Level, number_of)?,
        timeout: words.value("timeout=", Expected::Timeout, number_of)?,
        interval: words.value("interval=", Expected::Interval, number_of)?,
        operator_ack_necessary: words.value(
            "acknowledgment=",
            Expected::Acknowledgment,
            yes_or_no,
        )?,
    };
    words.end()?;
    Ok(Setting::Parameters {
        settings: Settings::from(wide),
    })
}

pub(crate) fn read_carrier(mut words: Words<'_>) -> Result<Setting, Expected> {
    let network = match words.word(Expected::CarrierName)? {
        "publishing" => Network::Publishing,
        "calling" => Network::Calling {
            up: words.read(Expected::Memories, number_of)?,
            down: words.read(Expected::Memories, number_of)?,
        },
        _ => return Err(Expected::CarrierName),
    };
    words.end()?;
    Ok(Setting::Carrier { network })
}

// A code that is too wide counts as the widest.
fn code(text: &str) -> Result<u8, LineFault> {
    let code = number_of(text).ok_or(Expected::Code)?;
    Ok(u8::try_from(code).unwrap_or(u8::MAX))
}

pub(crate) fn read_codes(heap: Global, words: Words<'_>) -> Result<Setting, LineFault> {
    let mut codes = Vec::new(heap);
    for word in words.words {
        codes.push(code(word)?)?;
    }
    Ok(Setting::Disturb { codes })
}

// The start number of a link.
pub(crate) fn read_start(mut words: Words<'_>) -> Result<u32, Expected> {
    let start = words.value("start=", Expected::Start, short_number)?;
    words.end()?;
    Ok(start)
}
