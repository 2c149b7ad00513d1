// One request up and one response down over each carrier, and what comes of them.
#![tactic(auto)]

mod carriers;
mod messages;
mod relay;
mod steps;

use carriers::{call, disturb_calls, disturb_twice, publish};
use relay::tell_messages;

fn run(rt: &HostRuntime) -> anyhow::Result<()> {
    tell_messages(rt)?;
    publish(rt)?;
    call(rt)?;
    disturb_calls(rt)?;
    disturb_twice(rt)?;
    Ok(())
}

fn main(rt: HostRuntime) -> anyhow::Result<()> {
    run(&rt)
}
