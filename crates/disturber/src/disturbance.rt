ghost use Rattle.std.specs.Prelude.{◌≡◌};
ghost use Rattle.disturber.specs.Scripts.{read_code};

use crate::filling::ScriptRefusal;

// What happens to a down fetch.
#[derive(Clone, Copy, Debug, Default, PartialEq, Eq)]
pub enum Disturbance {
    // what comes is handed out
    #[default]
    Pass,
    // what comes is lost
    Lose,
    // nothing is fetched, and the kept message is handed out
    Repeat,
    // what comes is handed out damaged
    Flip,
}

// What a code of a script stands for.
impl TryFrom<u8> for Disturbance {
    type Error = ScriptRefusal;

    ghost try_from_gives = { λ code answer. answer ≡ read_code code };

    fn try_from(code: u8) -> Result<Disturbance, ScriptRefusal> {
        match code {
            0 => Ok(Disturbance::Pass),
            1 => Ok(Disturbance::Lose),
            2 => Ok(Disturbance::Repeat),
            3 => Ok(Disturbance::Flip),
            _ => Err(ScriptRefusal::Code),
        }
    }
}
