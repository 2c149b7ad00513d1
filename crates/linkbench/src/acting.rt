use crate::trouble::Trouble;
use carrier::Carrier;
use link::link::Link;
use message::flags::ResponseFlags;
use script::expected::Expected;
use script::kinds::Written;
use script::line::Call;
use script::show::{CycleLine, PlaceLine, ServeLine};
use std::alloc::{AllocError, Global};

// A message has at most 1,525 octets, so a buffer of more octets than this is used no otherwise.
const LONG_BUFFER: u64 = 65_536;

fn buffer_of(heap: Global, octets: u64) -> Result<Vec<u8>, AllocError> {
    vec![in heap; 0u8; octets.min(LONG_BUFFER) as usize]
}

fn serve<K: Written, C: Carrier>(
    rt: &HostRuntime,
    link: &mut Link<K, C>,
    given: K,
    flags: ResponseFlags,
    octets: u64,
) -> Result<(), Trouble> {
    let mut buffer = buffer_of(rt.alloc(), octets)?;
    let answer = link.serve(given, flags, buffer.as_mut_slice());
    // a response stands at the start of the buffer
    let sent = buffer.as_slice().get(0..K::LENGTH + 25).unwrap_or(&[]);
    println!(rt; "{}", ServeLine { answer, sent })?;
    Ok(())
}

// One call on the link, from the line of this number.
pub fn act<K: Written, C: Carrier>(
    rt: &HostRuntime,
    link: &mut Link<K, C>,
    number: u64,
    call: Call,
) -> Result<(), Trouble> {
    match call {
        Call::Cycle { inputs, buffer } => {
            let mut buffer = buffer_of(rt.alloc(), buffer)?;
            let reading = inputs.reading;
            let answer = link.cycle(inputs, buffer.as_mut_slice());
            println!(rt; "{}", CycleLine { reading, answer })?;
        }
        Call::Serve {
            given,
            flags,
            buffer,
        } => {
            let Some(given) = K::of(given) else {
                return Err(Trouble::expected(number, Expected::RecordOfKind));
            };
            serve(rt, link, given, flags, buffer)?;
        }
        Call::Place { lane, octets } => {
            let answer = link.place(lane, octets.as_slice());
            println!(rt; "{}", PlaceLine { lane, answer })?;
        }
    }
    Ok(())
}
