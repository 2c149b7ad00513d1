ghost use Rattle.std.specs.Prelude.{◌≡◌};
ghost use Rattle.draw.specs.Draws.{opened, asked_after, reached, taken};

use consumer::event::{CycleAnswer, Event};
use consumer::state::Shown;
use record::meter::Meter;

// The bay's draw program: what it saw so far, and when it shut the nozzle.
#[derive(Clone, Copy)]
pub struct Bay {
    // when the request was made that now waits for its response
    asked_at: u32,
    // how old the request was that the shown count answers
    age: u32,
    shut: Option<Shut>,
}

// How the litre ended.
#[derive(Clone, Copy)]
pub struct Shut {
    pub time: u32,
    pub count: u32,
    pub age: u32,
}

// The litre, in pulses of a millilitre.
const LITRE: u32 = 1000;

// Does a shown process count say that the litre is drawn?
fn is_full(shown: Shown<Meter>) -> bool
    ensures { result ≡ reached shown }
{
    !shown.fsv_activated && shown.safety_data.pulses >= LITRE
}

impl Bay {
    pub fn new() -> Bay
        ensures { result ≡ opened }
    {
        Bay {
            asked_at: 0,
            age: 0,
            shut: None,
        }
    }

    // Keeps the times of requests.
    fn follow(&mut self, time: u32, event: Event)
        ensures { self.new ≡ asked_after time event self.old }
    {
        match event {
            Event::Started | Event::Expired => self.asked_at = time,
            Event::Accepted => {
                self.age = time.saturating_sub(self.asked_at);
                self.asked_at = time;
            }
            Event::Disabled | Event::Nothing | Event::Ignored | Event::Fault(_) => {}
        }
    }

    // Takes what a cycle at this time answered, and shuts the nozzle where a shown process count has reached the litre.
    pub fn take(&mut self, time: u32, answer: &CycleAnswer<Meter>)
        ensures { self.new ≡ taken time answer.now.shown answer.now.event self.old }
    {
        self.follow(time, answer.event);
        if self.shut.is_none() && is_full(answer.shown) {
            self.shut = Some(Shut {
                time,
                count: answer.shown.safety_data.pulses,
                age: self.age,
            });
        }
    }

    pub fn shut(&self) -> Option<Shut>
        ensures { result ≡ self.now.shut }
    {
        self.shut
    }
}
