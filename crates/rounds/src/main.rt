// How fast a link is: a million rounds, each one enabled cycle and one serve, over the calling carrier, for the meter
// record and for the longest record that there is.
#![tactic(auto)]

mod block;
mod chained;
mod run;
mod shares;
mod tally;

use block::Block;
use calling::Calling;
use calling::memory::SLOT;
use chained::Chained;
use message::response::LONGEST;
use record::meter::Meter;
use run::run_kind;

// Makes a carrier of two lanes of four slots and runs a link over it.
fn run_link<K: Chained>(rt: &HostRuntime, name: &str) -> anyhow::Result<()> {
    let mut up_memory = vec![in rt.alloc(); 0u8; 4 * SLOT]?;
    let mut down_memory = vec![in rt.alloc(); 0u8; 4 * SLOT]?;
    let buffer = vec![in rt.alloc(); 0u8; LONGEST]?;
    let carrier = Calling::new(up_memory.as_mut_slice(), down_memory.as_mut_slice());
    run_kind::<K, _>(rt, name, carrier, buffer)
}

fn main(rt: HostRuntime) -> anyhow::Result<()> {
    run_link::<Meter>(&rt, "meter, 7 octets")?;
    run_link::<Block>(&rt, "block, 1500 octets")
}
