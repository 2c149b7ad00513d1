ghost use Rattle.std.specs.Prelude.{◌≡◌, ◌*◌, ◌≤◌, length};
ghost use Rattle.calling.specs.Chains.{no_slots};
ghost use Rattle.calling.specs.Lane.{Appends, Takes, Formatted};
ghost use Rattle.calling.specs.Memory.{whole_slots};
ghost use Rattle.calling.specs.Slots.{slot_octets};
ghost use Rattle.message.specs.Response.{longest};

use crate::chains::Heads;
use crate::memory::{SLOT, is_whole};
use crate::slot::{copy_out, fill_slot, link_slot, next, slot_at};
use carrier::lane::PlaceRefusal;
use carrier::sendable::Sendable;
use std::marker::Model;

// A lane in a lent memory; its chains are always lawful.
#[derive(Drop)]
pub struct SlotLane<'a> {
    memory: &'a mut [u8],
    heads: Heads,
}

impl<'a> Model for SlotLane<'a> {
    ghost use Rattle.calling.specs.Chains.{Stored, Lawful};

    ghost Value = { Stored };

    ghost view = { λ l. record { octets = l.memory.now; heads = l.heads } };

    ghost invariant = { λ l. Lawful (record { octets = l.memory.now; heads = l.heads }) };
}

impl<'a> SlotLane<'a> {
    // Nothing is written to the memory, and no slot is in use.
    pub fn new(memory: &'a mut [u8]) -> SlotLane<'a>
        ensures { result ≡ record { octets = memory.old; heads = no_slots } }
    {
        let heads = Heads::default();
        SlotLane { memory, heads }
    }

    pub(crate) fn is_whole(&self) -> bool
        ensures { result ≡ whole_slots (length self.now.octets) }
    {
        is_whole(self.memory)
    }

    // Chains every slot of the memory as a free one.
    pub(crate) fn format(&mut self)
        requires { length self.old.octets ≤ 16 * slot_octets }
        ensures { Formatted self.old.octets self.new }
    {
        let memory = &mut *self.memory;
        let slots = (memory.len() / SLOT) as u16;
        let mut free = 0;
        for k in (1..=slots).rev() {
            link_slot(memory, k, free);
            free = k;
        }
        self.heads = Heads {
            slots,
            free,
            ..Heads::default()
        };
    }

    // Uses no slot from now on; the memory stands.
    pub(crate) fn close(&mut self)
        ensures { self.new ≡ record { octets = self.old.octets; heads = no_slots } }
    {
        self.heads = Heads::default();
    }

    pub(crate) fn slots(&self) -> u16
        ensures { result ≡ self.now.heads.slots }
    {
        self.heads.slots
    }

    // Puts a message into a free slot, behind those that wait.
    pub(crate) fn place(&mut self, message: Sendable<'_>) -> Result<(), PlaceRefusal>
        ensures { Appends self.old self.new message.entry.octets.now result }
    {
        let h = self.heads;
        let k = h.free;
        if k == 0 {
            return Err(PlaceRefusal::Full);
        }
        let memory = &mut *self.memory;
        let free = next(slot_at(memory, k));
        fill_slot(memory, k, message);
        if h.first == 0 {
            self.heads = Heads {
                first: k,
                last: k,
                free,
                ..h
            };
            return Ok(());
        }
        link_slot(memory, h.last, k);
        self.heads = Heads { last: k, free, ..h };
        Ok(())
    }

    // Writes the oldest message to the start of a buffer; its slot is free then.
    pub(crate) fn fetch(&mut self, buffer: &mut [u8]) -> Option<usize>
        requires { longest ≤ length buffer.old }
        ensures { Takes self.old self.new buffer.old buffer.new result }
    {
        let h = self.heads;
        let k = h.first;
        if k == 0 {
            return None;
        }
        let memory = &mut *self.memory;
        let first = next(slot_at(memory, k));
        let size = copy_out(slot_at(memory, k), buffer);
        link_slot(memory, k, h.free);
        self.heads = Heads {
            first,
            free: k,
            ..h
        };
        Some(size)
    }
}
