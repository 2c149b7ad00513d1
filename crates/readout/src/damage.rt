ghost use Rattle.std.specs.Prelude.{◌≡◌, ◌<◌, take, bit_xor, slice_index, slice_set};
ghost use Rattle.message.specs.Layout.{written};
ghost use Rattle.record.specs.Octets.{le};
ghost use Rattle.signature.specs.Signature.{signature};

use crate::bay::judge;
use crate::exchange::Exchange;
use crate::layout::{Field, LENGTH, RESPONSE, SIGNED};
use crate::outcome::{Outcome, Tally};
use signature::signature;
use std::io;

// A response with the lowest bit of one octet flipped.
fn flipped(message: [u8; LENGTH], place: usize) -> [u8; LENGTH]
    requires { place < 32 }
    ensures { result ≡ slice_set message place (bit_xor (slice_index message place) 1) }
{
    let mut damaged = message;
    damaged[place] ^= 1;
    damaged
}

// A response signed again: the signature of the other octets stands in the last four.
fn signed(message: [u8; LENGTH]) -> [u8; LENGTH]
    ensures { result ≡ written message 28 (le 4 (signature (take 28 message))) }
{
    let mut again = message;
    let signature = signature(&again[0..SIGNED]);
    again[SIGNED..LENGTH].copy_from_slice(&signature.to_le_bytes());
    again
}

// Judges a damaged response and counts what becomes of it.
fn try_message(exchange: &Exchange, message: [u8; LENGTH], tally: &mut Tally) -> Outcome {
    let judged = judge(&exchange.parameters, &exchange.request, &message);
    let outcome = Outcome::of(exchange.reading, judged);
    tally.add(outcome);
    outcome
}

// What became of the responses that were damaged, as they are and signed again.
#[derive(Clone, Copy, Default)]
struct Tallies {
    plain: Tally,
    resigned: Tally,
}

// Damages each octet of a field in turn.
fn show_field(
    rt: &HostRuntime,
    exchange: &Exchange,
    field: &Field,
    tallies: &mut Tallies,
) -> io::Result<()> {
    let name = field.name;
    for place in field.first..=field.last {
        let damaged = flipped(exchange.message, place);
        let outcome = try_message(exchange, damaged, &mut tallies.plain);
        print!(rt; "   {place:>5}  {name:<19}  {outcome}")?;
        if place < SIGNED {
            let outcome = try_message(exchange, signed(damaged), &mut tallies.resigned);
            print!(rt; "  {outcome}")?;
        }
        println!(rt)?;
    }
    Ok(())
}

pub fn show(rt: &HostRuntime, exchange: &Exchange) -> io::Result<()> {
    println!(rt;
        "\n5. The damage: the lowest bit of one octet is flipped, one octet after the other\n   A refusal tells its number, the layer that found the fault and the octet where the field begins.\n   21 length or signature, 22 identity, 23 consumer id, 24 monitoring number, 25 record\n   octet  field                as it is                        signed again over the damage"
    )?;
    let mut tallies = Tallies::default();
    for field in &RESPONSE[..] {
        show_field(rt, exchange, field, &mut tallies)?;
    }
    show_tallies(rt, tallies)
}

// The counts of each outcome.
fn show_tallies(rt: &HostRuntime, tallies: Tallies) -> io::Result<()> {
    let Tally {
        refused,
        foreign,
        accepted,
    } = tallies.resigned;
    println!(rt;
        "   A foreign monitoring number passes check and read_record and is told apart only by the consumer,\n   which compares it with its own request.\n"
    )?;
    println!(rt;
        "{LENGTH} octets damaged: as they are {} refused; signed again {refused} refused by a check, {foreign} by the consumer, {accepted} accepted",
        tallies.plain.refused
    )
}
