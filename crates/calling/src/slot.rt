ghost use Rattle.std.specs.Prelude.{◌≡◌, ◌-◌, ◌*◌, ◌<◌, ◌≤◌, length, Some};
ghost use Rattle.carrier.specs.Fetch.{brought_in};
ghost use Rattle.calling.specs.Slots.{slot_octets, slot_read, slot_of, Within, Changed};
ghost use Rattle.message.specs.Response.{longest};

use crate::memory::SLOT;
use carrier::sendable::Sendable;

// The number of the slot behind this one in its chain.
pub(crate) fn next(slot: &[u8; SLOT]) -> u16
    ensures { result ≡ (slot_read slot.now).next }
{
    u16::from_le_bytes([slot[0], slot[1]])
}

// Writes a message into a slot that ends a chain. Of a part that is lent on as an array only the length is known afterwards, so
// this one is a slice.
fn fill(slot: &mut [u8], message: Sendable<'_>)
    requires { length slot.old ≡ slot_octets }
    ensures { slot_read slot.new ≡ record { next = 0; message = message.entry.octets.now } }
{
    let message = message.octets();
    let size = message.len();
    slot[0..2].copy_from_slice(&[0, 0]);
    slot[2..4].copy_from_slice(&(size as u16).to_le_bytes());
    slot[4..4 + size].copy_from_slice(message);
}

// Writes the message of a slot to the start of a buffer and answers its length.
pub(crate) fn copy_out(slot: &[u8; SLOT], buffer: &mut [u8]) -> usize
    requires size { length (slot_read slot.now).message ≤ longest }
    requires room { longest ≤ length buffer.old }
    ensures size { result ≡ length (slot_read slot.now).message }
    ensures buffer { buffer.new ≡ brought_in (Some (slot_read slot.now).message) buffer.old }
{
    let size = u16::from_le_bytes([slot[2], slot[3]]) as usize;
    buffer[0..size].copy_from_slice(&slot[4..4 + size]);
    size
}

// Where a slot begins in a memory.
fn offset(k: u16) -> usize
    requires { 0 < k }
    ensures { result ≡ (k - 1) * slot_octets }
{
    (k as usize - 1) * SLOT
}

// A memory and the number of one of its slots go together through the three functions from here on: a struct of both would
// borrow the memory anew for each call. Cut by `as_chunks_mut` the memory would be slots by its type, but the library does not
// say what it ends as.

pub(crate) fn slot_at(memory: &[u8], k: u16) -> &[u8; SLOT]
    requires { Within memory.now k }
    ensures { slot_read result.now ≡ slot_of memory.now k }
{
    let at = offset(k);
    memory[at..at + SLOT].as_array().unwrap()
}

// Writes a message into slot k, which then ends a chain.
pub(crate) fn fill_slot(memory: &mut [u8], k: u16, message: Sendable<'_>)
    requires { Within memory.old k }
    ensures { Changed (slot_of memory.old) (slot_of memory.new) k
        (record { next = 0; message = message.entry.octets.now }) }
{
    let at = offset(k);
    fill(&mut memory[at..at + SLOT], message);
}

// Writes the next number of slot k.
pub(crate) fn link_slot(memory: &mut [u8], k: u16, next: u16)
    requires { Within memory.old k }
    ensures { Changed (slot_of memory.old) (slot_of memory.new) k
        (record { next = next; message = (slot_of memory.old k).message }) }
{
    let at = offset(k);
    let slot = &mut memory[at..at + SLOT];
    slot[0..2].copy_from_slice(&next.to_le_bytes());
}
