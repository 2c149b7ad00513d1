use crate::acting::act;
use crate::chosen::{Chosen, Step};
use crate::source::{Source, asked};
use crate::trouble::Trouble;
use calling::Calling;
use carrier::Carrier;
use carrier::publishing::Publishing;
use consumer::setup::Setup;
use disturber::Disturber;
use link::link::Link;
use record::draw::Draw;
use record::meter::Meter;
use script::expected::Expected;
use script::kinds::Written;
use script::line::{Call, Kind, Line, Network};
use std::io::BufRead;

// A script that is run: what it chose, and the lines that are still to come.
#[derive(Drop)]
pub struct Bench<'a, R> {
    rt: &'a HostRuntime,
    chosen: Chosen,
    source: Source<R>,
}

impl<'a, R: BufRead + Drop> Bench<'a, R> {
    pub fn new(rt: &'a HostRuntime, source: Source<R>) -> Bench<'a, R> {
        Bench {
            rt,
            chosen: Chosen::new(),
            source,
        }
    }

    // The next line that makes a link or calls it, by its number; the lines before it are taken.
    fn advance(&mut self) -> Result<Option<(u64, Step)>, Trouble> {
        for (number, line) in self.source.by_ref() {
            match asked(self.rt.alloc(), number, line)? {
                Line::Nothing => {}
                Line::Setting { setting } => self.chosen.set(self.rt, setting)?,
                Line::Link { start } => {
                    if let Some(setup) = self.chosen.making(self.rt, number, start)? {
                        return Ok(Some((number, Step::Link(setup))));
                    }
                }
                Line::Call { call } => return Ok(Some((number, Step::Call(call)))),
            }
        }
        Ok(None)
    }

    // The lines until one makes a link; each call before it is passed on with the number of its line.
    fn until_link<F: FnMut(u64, Call) -> Result<(), Trouble>>(
        &mut self,
        mut call_link: F,
    ) -> Result<Option<Setup>, Trouble>
        requires { F.IsAlwaysCallable call_link }
    {
        // a loop over input has no measure of its own
        for _ in 0..u64::MAX {
            match self.advance()? {
                None => break,
                Some((_, Step::Link(setup))) => return Ok(Some(setup)),
                Some((number, Step::Call(call))) => call_link(number, call)?,
            }
        }
        Ok(None)
    }

    // A link over a carrier.
    fn run_link<K: Written + Drop, C: Carrier + Drop>(
        &mut self,
        setup: Setup,
        carrier: C,
    ) -> Result<Option<Setup>, Trouble> {
        let rt = self.rt;
        let mut link: Link<K, C> = Link::new(setup.parameters, setup.start, carrier);
        self.until_link(|number, call| act(rt, &mut link, number, call))
    }

    // A link over a carrier, with a disturber where the script has one.
    fn run_carrier<K: Written + Drop, C: Carrier + Drop>(
        &mut self,
        setup: Setup,
        carrier: C,
    ) -> Result<Option<Setup>, Trouble> {
        match self.chosen.script() {
            Some(script) => self.run_link::<K, Disturber<C>>(
                setup,
                Disturber::new(carrier, script),
            ),
            None => self.run_link::<K, C>(setup, carrier),
        }
    }

    // A link of a kind, over the carrier that the script chose.
    fn run_kind<K: Written + Drop>(&mut self, setup: Setup) -> Result<Option<Setup>, Trouble> {
        match self.chosen.network {
            Network::Publishing => self.run_carrier::<K, Publishing>(setup, Publishing::new()),
            Network::Calling { up, down } => {
                let heap = self.rt.alloc();
                let mut up_memory = vec![in heap; 0u8; up as usize]?;
                let mut down_memory = vec![in heap; 0u8; down as usize]?;
                let carrier = Calling::new(up_memory.as_mut_slice(), down_memory.as_mut_slice());
                self.run_carrier::<K, _>(setup, carrier)
            }
        }
    }

    // Each link in turn, from the first line to the last.
    pub fn run(&mut self) -> Result<(), Trouble> {
        let mut next = self.until_link(|number, _call| Err(Trouble::expected(
            number,
            Expected::LinkFirst,
        )))?;
        // a loop over input has no measure of its own
        for _ in 0..u64::MAX {
            let Some(setup) = next else {
                break;
            };
            next = match self.chosen.kind {
                Kind::Meter => self.run_kind::<Meter>(setup)?,
                Kind::Draw => self.run_kind::<Draw>(setup)?,
            };
        }
        Ok(())
    }
}
