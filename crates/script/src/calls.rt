use crate::expected::{Expected, LineFault};
use crate::line::Call;
use crate::records::read_record;
use crate::words::Words;
use carrier::lane::Lane;
use consumer::inputs::Inputs;
use message::flags::ResponseFlags;
use message::response::LONGEST;
use std::alloc::Global;
use std::mem;
use text::hexadecimal::octets_of;
use text::number::number_of;

// The octets of a buffer that no line asks for.
const USUAL_BUFFER: u64 = LONGEST as u64;

// Sets a flag, unless it is set already.
fn set_once(flag: &mut bool) -> bool {
    !mem::replace(flag, true)
}

// The octets of a call's buffer, by the words that end it; each may stand once, and `take` takes all but the buffer.
fn read_options<F: FnMut(&str) -> bool>(
    words: Words<'_>,
    expected: Expected,
    mut take: F,
) -> Result<u64, Expected>
    requires { F.IsAlwaysCallable take }
{
    let mut buffer = None;
    for word in words.words {
        if take(word) {
            continue;
        }
        match word.strip_prefix("buffer=").and_then(number_of) {
            Some(octets) if buffer.is_none() => buffer = Some(octets),
            _ => return Err(expected),
        }
    }
    Ok(buffer.unwrap_or(USUAL_BUFFER))
}

pub(crate) fn read_cycle(mut words: Words<'_>) -> Result<Call, Expected> {
    let reading = words.read(Expected::Reading, number_of)?;
    let enable = words.one_of(Expected::Enable, [("enable", true), ("disable", false)])?;
    let mut ack = false;
    let buffer = read_options(
        words,
        Expected::CycleOption,
        |word| word == "ack" && set_once(&mut ack),
    )?;
    Ok(Call::Cycle {
        inputs: Inputs {
            reading,
            enable,
            ack,
        },
        buffer,
    })
}

pub(crate) fn read_serve(mut words: Words<'_>) -> Result<Call, Expected> {
    let given = read_record(&mut words)?;
    let mut flags = ResponseFlags {
        operator_ack_provider: false,
        activate_fsv: false,
        test_mode_activated: false,
    };
    let buffer = read_options(words, Expected::ServeOption, |word| match word {
        "operator-ack" => set_once(&mut flags.operator_ack_provider),
        "activate-fsv" => set_once(&mut flags.activate_fsv),
        "test-mode" => set_once(&mut flags.test_mode_activated),
        _ => false,
    })?;
    Ok(Call::Serve {
        given,
        flags,
        buffer,
    })
}

pub(crate) fn read_place(heap: Global, mut words: Words<'_>) -> Result<Call, LineFault> {
    let lane = words.one_of(Expected::LaneName, [("up", Lane::Up), ("down", Lane::Down)])?;
    let octets = match words.words.next() {
        Some(text) => octets_of(heap, text)?.ok_or(Expected::Octets)?,
        None => Vec::new(heap),
    };
    words.end()?;
    Ok(Call::Place { lane, octets })
}
