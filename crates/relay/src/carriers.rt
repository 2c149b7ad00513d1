ghost use Rattle.std.specs.Prelude.{◌≡◌, Ok};
ghost use Rattle.disturber.specs.Scripts.{fill_answer};

use crate::messages::{request, response};
use crate::relay::Relay;
use crate::steps::{CALLED, CODES, DISTURBED, LOWER, PUBLISHED, TWICE, UPPER};
use calling::Calling;
use calling::memory::SLOT;
use carrier::lane::Lane;
use carrier::publishing::Publishing;
use disturber::Disturber;
use disturber::script::Script;
use std::io;

// How many slots each lane of a calling carrier has.
const UP_SLOTS: usize = 1;

const DOWN_SLOTS: usize = 2;

pub fn publish(rt: &impl Print) -> io::Result<()> {
    let mut relay = Relay::new(rt, Publishing::new());
    relay.run(
        "1. A publishing carrier: each lane shows its latest message until the next takes its place.",
        &PUBLISHED,
    )
}

pub fn call(rt: &(impl Print + AllocGlobal)) -> anyhow::Result<()> {
    let mut up_memory = vec![in rt.alloc(); 0u8; UP_SLOTS * SLOT]?;
    let mut down_memory = vec![in rt.alloc(); 0u8; DOWN_SLOTS * SLOT]?;
    let calling = Calling::new(up_memory.as_mut_slice(), down_memory.as_mut_slice());
    let mut relay = Relay::new(rt, calling);
    relay.run(
        "2. A calling carrier with 1 slot up and 2 slots down: messages wait in their slots until they are fetched.",
        &CALLED,
    )?;
    relay.crowd(Lane::Up, &request(), UP_SLOTS)?;
    relay.crowd(Lane::Down, &response(), DOWN_SLOTS)?;
    Ok(())
}

// A script of these codes.
fn script(codes: &[u8]) -> Script
    requires { fill_answer codes.now ≡ Ok tt }
{
    let mut script = Script::empty();
    script.fill(codes).unwrap();
    script
}

pub fn disturb_calls(rt: &(impl Print + AllocGlobal)) -> anyhow::Result<()> {
    let mut up_memory = vec![in rt.alloc(); 0u8; UP_SLOTS * SLOT]?;
    let mut down_memory = vec![in rt.alloc(); 0u8; DOWN_SLOTS * SLOT]?;
    let calling = Calling::new(up_memory.as_mut_slice(), down_memory.as_mut_slice());
    let mut relay = Relay::new(rt, Disturber::new(calling, script(&CODES)));
    relay.run(
        "3. A disturber over such a carrier: each down fetch uses one code of its script, an up fetch none.",
        &DISTURBED,
    )?;
    Ok(())
}

pub fn disturb_twice(rt: &impl Print) -> io::Result<()> {
    let lower = Disturber::new(Publishing::new(), script(&LOWER));
    let mut relay = Relay::new(rt, Disturber::new(lower, script(&UPPER)));
    relay.run(
        "4. A disturber over a disturber over a publishing carrier: what the lower hands out, the upper disturbs.",
        &TWICE,
    )
}
