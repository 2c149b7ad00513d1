ghost use Rattle.std.specs.Prelude.{◌≡◌, length};
ghost use Rattle.calling.specs.Memory.{whole_slots, memory_checked, memory_number};

// How many octets a slot has.
pub const SLOT: usize = 1536;

// Why a memory cannot be a lane.
#[derive(Clone, Copy, Debug, PartialEq, Eq)]
pub enum MemoryRefusal {
    // it is not 1 to 16 whole slots
    NotWholeSlots,
}

impl MemoryRefusal {
    // The number that the rules of the link give it.
    pub fn number(&self) -> u8
        ensures { result ≡ memory_number self.now }
    {
        match self {
            MemoryRefusal::NotWholeSlots => 5,
        }
    }
}

// Is a memory 1 to 16 whole slots?
pub(crate) fn is_whole(memory: &[u8]) -> bool
    ensures { result ≡ whole_slots (length memory.now) }
{
    let octets = memory.len();
    (SLOT..=16 * SLOT).contains(&octets) && octets % SLOT == 0
}

// Tests a memory before a lane is made of it.
pub fn check_memory(memory: &[u8]) -> Result<(), MemoryRefusal>
    ensures { result ≡ memory_checked (length memory.now) }
{
    if is_whole(memory) {
        Ok(())
    } else {
        Err(MemoryRefusal::NotWholeSlots)
    }
}
