ghost use Rattle.std.specs.Prelude.{◌≡◌, [], drop, None};
ghost use Rattle.carrier.specs.Cells.{held};
ghost use Rattle.disturber.specs.Scripts.{to_come, next_of, Filled, script_number};

use crate::disturbance::Disturbance;
use crate::script::{MOST_CODES, Script};
use arrayvec::ArrayVec;
use carrier::cell::Cell;

// Why a script was not taken.
#[derive(Clone, Copy, Debug, PartialEq, Eq)]
pub enum ScriptRefusal {
    // it has over 64 codes
    Length,
    // a code is over 3
    Code,
}

impl ScriptRefusal {
    // The number that the rules of the link give it.
    pub fn number(&self) -> u8
        ensures { result ≡ script_number self.now }
    {
        match self {
            ScriptRefusal::Length => 6,
            ScriptRefusal::Code => 6,
        }
    }
}

impl Script {
    // No codes, and nothing kept.
    pub fn empty() -> Script
        ensures codes { to_come result ≡ [] }
        ensures kept { held result.kept ≡ None }
    {
        Script {
            next: 0,
            codes: ArrayVec::new(),
            kept: Cell::empty(),
        }
    }

    // Takes these codes, from the first on, in the place of those before; or refuses them and changes nothing.
    pub fn fill(&mut self, codes: &[u8]) -> Result<(), ScriptRefusal>
        ensures { Filled codes.now self.old self.new result }
    {
        if codes.len() > MOST_CODES {
            return Err(ScriptRefusal::Length);
        }
        let mut taken = ArrayVec::new();
        for code in codes {
            taken.push(Disturbance::try_from(*code)?);
        }
        self.codes = taken;
        self.next = 0;
        Ok(())
    }

    // The disturbance for a down fetch, which uses one code.
    pub(crate) fn advance(&mut self) -> Disturbance
        ensures disturbance { result ≡ next_of (to_come self.old) }
        ensures moves { to_come self.new ≡ drop 1 (to_come self.old) }
        ensures kept { self.new.kept ≡ self.old.kept }
    {
        let Some(&disturbance) = self.codes.get(self.next) else {
            return Disturbance::Pass;
        };
        self.next += 1;
        disturbance
    }
}
