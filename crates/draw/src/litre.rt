use crate::bay::{Bay, Shut};
use crate::lines::{BayLine, SkidLine};
use crate::skid::{pulses_at, reading_at};
use anyhow::anyhow;
use carrier::Carrier;
use consumer::inputs::Inputs;
use consumer::start::StartNumber;
use disturber::Disturber;
use disturber::script::Script;
use link::link::Link;
use message::flags::ResponseFlags;
use message::making::Settings;
use message::parameters::{BaseId, Parameters};
use message::response::LONGEST;
use record::meter::Meter;
use std::io;

// The bay cycles and the skid serves every 10 milliseconds, for 2 seconds at most.
const STEP: u32 = 10;

const STEPS: u32 = 200;

// A request may wait for 50 milliseconds.
const TIMEOUT: u32 = 50;

// The network passes 20 responses and then, for five fetches, hands out the last of them again and holds the next back.
const PASSED: usize = 20;

const HELD_BACK: usize = 5;

fn parameters() -> Parameters {
    let settings = Settings {
        consumer_id: 7,
        provider_id: 1,
        base_id: BaseId::new(0x7296_2B91, 0x4AE6_FA75, 0x04B4_288D, 0x63AF_7DDC),
        level: 3,
        timeout: TIMEOUT,
        error_interval: 6,
        operator_ack_necessary: true,
    };
    Parameters::new(settings).unwrap()
}

fn start() -> StartNumber {
    StartNumber::new(256).unwrap()
}

// The script of the network.
fn network() -> Script {
    let mut codes = [0; PASSED + HELD_BACK];
    codes[PASSED..].fill(2);
    let mut script = Script::empty();
    script.fill(&codes).unwrap();
    script
}

fn print_end(rt: &impl Print, shut: Shut) -> io::Result<()> {
    let Shut { time, count, age } = shut;
    let passed = pulses_at(time);
    let over = passed.saturating_sub(1000);
    println!(rt)?;
    println!(rt; "nozzle shut at {time} ms on a count of {count} pulses")?;
    println!(rt;
        "the request of that count was {age} ms old; it is proved to be at most {} ms",
        2 * TIMEOUT
    )?;
    println!(rt; "the meter had passed {passed} ml by then, {over} ml over the litre")
}

// The inputs of an enabled cycle at this time.
fn enabled(time: u32, ack: bool) -> Inputs {
    Inputs {
        reading: u64::from(time),
        enable: true,
        ack,
    }
}

// Draws a litre over this carrier and tells each action.
pub fn draw_litre<C: Carrier + Drop>(rt: &impl Print, carrier: C) -> anyhow::Result<()> {
    let mut link: Link<Meter, Disturber<C>> = Link::new(
        parameters(),
        start(),
        Disturber::new(carrier, network()),
    );
    let mut bay = Bay::new();
    let mut buffer = [0; LONGEST];
    let flags = ResponseFlags::default();
    let mut ack = false;
    for step in 0..STEPS {
        let time = step * STEP;
        let answer = link
            .cycle(enabled(time, ack), &mut buffer)
            .map_err(|_| anyhow!("the cycle is refused"))?;
        println!(rt; "{}", BayLine { time, answer })?;
        bay.take(time, &answer);
        if let Some(shut) = bay.shut() {
            return Ok(print_end(rt, shut)?);
        }
        // the operator acknowledges as soon as the bay wishes for it
        ack = answer.shown.operator_ack_requested;
        let reading = reading_at(time);
        let answer = link
            .serve(reading, flags, &mut buffer)
            .map_err(|_| anyhow!("the serve is refused"))?;
        let pulses = reading.pulses;
        println!(rt;
            "{}",
            SkidLine {
                time,
                answer,
                pulses
            }
        )?;
    }
    Err(anyhow!("the nozzle was not shut"))
}
