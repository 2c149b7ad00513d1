use crate::chained::Chained;
use crate::shares::{Shares, nanoseconds};
use crate::tally::Tally;
use anyhow::bail;
use carrier::Carrier;
use consumer::inputs::Inputs;
use consumer::start::StartNumber;
use link::link::Link;
use message::flags::ResponseFlags;
use message::making::Settings;
use message::parameters::{BaseId, Parameters};
use std::io;
use std::rt::Clock;
use std::time::Instant;

// A million rounds are timed in a thousand batches, and then a hundred thousand call by call in a hundred. The fastest
// batch is told, since other work on the machine can only slow one down.
const ROUNDS: u32 = 1_000;

const BATCHES: u32 = 1_000;

const TIMED_BATCHES: u32 = 100;

fn parameters() -> Parameters {
    let settings = Settings {
        consumer_id: 7,
        provider_id: 1,
        base_id: BaseId::new(0x7296_2B91, 0x4AE6_FA75, 0x04B4_288D, 0x63AF_7DDC),
        level: 3,
        timeout: 50,
        error_interval: 6,
        operator_ack_necessary: false,
    };
    Parameters::new(settings).unwrap()
}

fn start() -> StartNumber {
    StartNumber::new(256).unwrap()
}

// An enabled cycle, with the round as its time.
fn enabled(round: u32) -> Inputs {
    Inputs {
        reading: u64::from(round),
        enable: true,
        ack: false,
    }
}

// A link on which rounds are timed, and what its cycles answered.
#[derive(Drop)]
struct Run<'a, K, C, R> {
    clock: &'a R,
    link: Link<K, C>,
    buffer: Vec<u8>,
    tally: Tally,
}

// A call on the link stands where it is timed: these spans are what the program measures, and a method around it took
// 20 ns of its own in them, for the error that it returns.
impl<K: Chained, C: Carrier, R: Clock> Run<'_, K, C, R> {
    // Nanoseconds of a batch. The clock is read before its first round and after its last.
    fn whole(&mut self) -> anyhow::Result<u64> {
        let begun = Instant::now(self.clock)?;
        for _ in 0..ROUNDS {
            let round = self.tally.cycles;
            let Ok(answer) = self.link.cycle(enabled(round), self.buffer.as_mut_slice()) else {
                bail!("a cycle is refused");
            };
            let shown = answer.shown.safety_data;
            self.tally.take(answer.event, shown.sample(round));
            let Ok(_) = self.link.serve(
                shown.following(round),
                ResponseFlags::default(),
                self.buffer.as_mut_slice(),
            )
            else {
                bail!("a serve is refused");
            };
        }
        Ok(nanoseconds(begun.elapsed(self.clock)?))
    }

    // What the cycles and the serves of a batch take. The clock is read before a cycle, after it, after the serve and at
    // once again; in that last span nothing is done, so it is what reading the clock takes, and it is taken off the other
    // two. What a round does besides, to count and to make the next record, lies in none of the spans.
    fn apart(&mut self) -> anyhow::Result<Shares> {
        let mut shares = Shares::default();
        let mut given = K::substitute();
        for _ in 0..ROUNDS {
            let round = self.tally.cycles;
            let begun = Instant::now(self.clock)?;
            let Ok(answer) = self.link.cycle(enabled(round), self.buffer.as_mut_slice()) else {
                bail!("a cycle is refused");
            };
            let cycled = Instant::now(self.clock)?;
            let Ok(_) = self.link.serve(given, ResponseFlags::default(), self.buffer.as_mut_slice())
            else {
                bail!("a serve is refused");
            };
            let served = Instant::now(self.clock)?;
            let reading = served.elapsed(self.clock)?;
            shares.add(
                cycled.duration_since(begun),
                served.duration_since(cycled),
                reading,
            );
            let shown = answer.shown.safety_data;
            self.tally.take(answer.event, shown.sample(round));
            given = shown.following(round);
        }
        Ok(shares)
    }
}

// Prints what one call takes, of the nanoseconds that a batch of them took.
fn print_call(rt: &impl Eprint, name: &str, call: &str, batch: u64) -> io::Result<()> {
    let tenths = batch.saturating_mul(10) / u64::from(ROUNDS);
    let whole = tenths / 10;
    let part = tenths % 10;
    eprintln!(rt; "{name}: {whole}.{part} ns a {call}")
}

// Runs a link of records of kind K over this carrier. What was shown goes to standard output, the times to standard
// error.
pub fn run_kind<K: Chained, C: Carrier + Drop>(
    rt: &(impl Print + Eprint + Clock),
    name: &str,
    carrier: C,
    buffer: Vec<u8>,
) -> anyhow::Result<()> {
    let link: Link<K, C> = Link::new(parameters(), start(), carrier);
    let mut run = Run {
        clock: rt,
        link,
        buffer,
        tally: Tally::default(),
    };
    let mut whole = u64::MAX;
    for _ in 0..BATCHES {
        whole = whole.min(run.whole()?);
    }
    let mut shares = Shares::most();
    for _ in 0..TIMED_BATCHES {
        shares = shares.least(run.apart()?);
    }
    let rate = u64::from(ROUNDS) * 1_000_000_000 / whole.max(1);
    eprintln!(rt; "{name}: {rate} rounds a second")?;
    print_call(rt, name, "round", whole)?;
    print_call(rt, name, "cycle", shares.cycles())?;
    print_call(rt, name, "serve", shares.serves())?;
    println!(rt; "{name}: {}", run.tally)?;
    Ok(())
}
