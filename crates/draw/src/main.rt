// One litre drawn through a meter on the proving skid, by the count that the link shows.
#![tactic(auto)]

mod bay;
mod lines;
mod litre;
mod skid;

use calling::Calling;
use calling::memory::SLOT;
use litre::draw_litre;

fn run(rt: &HostRuntime) -> anyhow::Result<()> {
    let mut up_memory = vec![in rt.alloc(); 0u8; 4 * SLOT]?;
    let mut down_memory = vec![in rt.alloc(); 0u8; 4 * SLOT]?;
    let carrier = Calling::new(up_memory.as_mut_slice(), down_memory.as_mut_slice());
    draw_litre(rt, carrier)
}

fn main(rt: HostRuntime) -> anyhow::Result<()> {
    run(&rt)
}
