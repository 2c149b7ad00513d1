use crate::messages::{READING, request, response};
use crate::steps::Step;
use carrier::Carrier;
use carrier::lane::{Lane, PlaceRefusal};
use message::response::LONGEST;
use message::sound::is_sound;
use std::io;

pub fn tell_messages(rt: &impl Print) -> io::Result<()> {
    let asked = request().len();
    let answered = response().len();
    let pulses = READING.pulses;
    let centidegrees = READING.centidegrees;
    print!(rt; "Up goes a request of {asked} octets, down a response of {answered} octets: ")?;
    println!(rt; "{pulses} pulses, {centidegrees} hundredths of a degree, valid.")?;
    println!(rt;
        "A message is sound if its last four octets are the signature of those before. A request has no signature."
    )
}

// A carrier, and where each call on it is told.
#[derive(Drop)]
pub struct Relay<'a, P, C> {
    rt: &'a P,
    carrier: C,
}

impl<'a, P: Print, C: Carrier> Relay<'a, P, C> {
    pub fn new(rt: &'a P, carrier: C) -> Relay<'a, P, C> {
        Relay { rt, carrier }
    }

    fn place(&mut self, lane: Lane, message: &[u8]) -> io::Result<()> {
        let octets = message.len();
        print!(self.rt; "   {lane:<4}  place  {octets:>2} octets, ")?;
        match self.carrier.place(lane, message) {
            Ok(()) => println!(self.rt; "taken"),
            Err(refusal) => {
                let number = refusal.number();
                let why = match refusal {
                    PlaceRefusal::Length => "no message has so many octets",
                    PlaceRefusal::Full => "the lane is full",
                };
                println!(self.rt; "refused with {number}: {why}")
            }
        }
    }

    fn fetch(&mut self, lane: Lane, placed: &[u8], remark: &str) -> io::Result<()> {
        print!(self.rt; "   {lane:<4}  fetch  ")?;
        let mut buffer = [0; LONGEST];
        match self.carrier.fetch(lane, &mut buffer) {
            Ok(Some(octets)) => {
                let came = buffer.get(0..octets).unwrap_or(&[]);
                let sound = if is_sound(came) {
                    "sound,"
                } else {
                    "not sound,"
                };
                let same = if came == placed {
                    "as placed"
                } else {
                    "not as placed"
                };
                println!(self.rt; "{octets:>2} octets, {sound:<10} {same:<13}  {remark}")
            }
            Ok(None) => println!(self.rt; "{:<35}  {remark}", "none"),
            Err(refusal) => {
                let number = refusal.number();
                println!(self.rt; "refused with {number}")
            }
        }
    }

    // Sends the request up and the response down, and fetches until the lanes have shown what they do.
    pub fn run(&mut self, name: &str, steps: &[Step<'_>]) -> io::Result<()> {
        let asked = request();
        let answered = response();
        println!(self.rt; "\n{name}")?;
        self.place(Lane::Up, &asked)?;
        self.fetch(Lane::Up, &asked, "the request")?;
        for step in steps {
            if step.places {
                self.place(Lane::Down, &answered)?;
            }
            self.fetch(Lane::Down, &answered, step.remark)?;
        }
        Ok(())
    }

    // Places a message on a lane of so many slots once more than it has room for.
    pub fn crowd(&mut self, lane: Lane, message: &[u8], slots: usize) -> io::Result<()> {
        for _ in 0..slots {
            self.place(lane, message)?;
        }
        self.place(lane, message)
    }
}
