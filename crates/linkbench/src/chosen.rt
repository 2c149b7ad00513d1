use crate::trouble::Trouble;
use calling::memory::{SLOT, check_memory};
use consumer::setup::Setup;
use consumer::start::StartNumber;
use disturber::filling::ScriptRefusal;
use disturber::script::Script;
use message::making::{ParameterRefusal, Settings};
use message::parameters::Parameters;
use script::expected::Expected;
use script::line::{Call, Kind, Network, Setting};
use script::show::Refused;

// What a script chose for the next link.
#[derive(Drop)]
pub struct Chosen {
    pub kind: Kind,
    pub network: Network,
    // the codes of the disturber, where there is one
    codes: Option<Vec<u8>>,
    parameters: Option<Parameters>,
}

// What a line comes to that sets nothing.
#[derive(Drop)]
pub enum Step {
    Link(Setup),
    Call(Call),
}

// More octets than a lane memory may have.
const TOO_MANY: u64 = 16 * SLOT as u64 + 1;

// The disturber's script of these codes, from the first on.
fn script_of(codes: &[u8]) -> Result<Script, ScriptRefusal> {
    let mut script = Script::empty();
    script.fill(codes)?;
    Ok(script)
}

fn tell(rt: &HostRuntime, name: &str, answer: Result<(), u8>) -> Result<(), Trouble> {
    match answer {
        Ok(()) => println!(rt; "{name}: ok")?,
        Err(number) => println!(rt; "{}", Refused { name, number })?,
    }
    Ok(())
}

impl Chosen {
    pub fn new() -> Chosen {
        Chosen {
            kind: Kind::Meter,
            network: Network::Publishing,
            codes: None,
            parameters: None,
        }
    }

    fn set_parameters(&mut self, settings: Settings) -> Result<(), ParameterRefusal> {
        self.parameters = Some(Parameters::new(settings)?);
        Ok(())
    }

    // Sets the carrier, unless a lane's memory is refused, and tells which.
    fn set_network(&mut self, rt: &HostRuntime, network: Network) -> Result<(), Trouble> {
        if let Network::Calling { up, down } = network {
            for octets in [up, down] {
                // without the octets that no lane memory has
                let memory = vec![in rt.alloc(); 0u8; octets.min(TOO_MANY) as usize]?;
                if let Err(refusal) = check_memory(memory.as_slice()) {
                    return tell(rt, "carrier", Err(refusal.number()));
                }
            }
        }
        self.network = network;
        tell(rt, "carrier", Ok(()))
    }

    fn set_codes(&mut self, codes: Vec<u8>) -> Result<(), ScriptRefusal> {
        drop(script_of(codes.as_slice())?);
        self.codes = Some(codes);
        Ok(())
    }

    pub fn set(&mut self, rt: &HostRuntime, setting: Setting) -> Result<(), Trouble> {
        match setting {
            Setting::Kind { kind } => {
                self.kind = kind;
                Ok(())
            }
            Setting::Parameters { settings } => {
                let set = self.set_parameters(settings);
                tell(rt, "parameters", set.map_err(|refusal| refusal.number()))
            }
            Setting::Carrier { network } => self.set_network(rt, network),
            Setting::Disturb { codes } => {
                let set = self.set_codes(codes);
                tell(rt, "disturb", set.map_err(|refusal| refusal.number()))
            }
        }
    }

    // The disturber's script from its first code, where there is a disturber; its codes were taken when they were set.
    pub fn script(&self) -> Option<Script> {
        script_of(self.codes.as_ref()?.as_slice()).ok()
    }

    // What a link from this number on is made with, unless the number is refused.
    pub fn making(
        &self,
        rt: &HostRuntime,
        line: u64,
        start: u32,
    ) -> Result<Option<Setup>, Trouble> {
        let Some(parameters) = self.parameters else {
            return Err(Trouble::expected(line, Expected::GoodParameters));
        };
        match StartNumber::new(start) {
            Ok(start) => {
                println!(rt; "link: made")?;
                Ok(Some(Setup { parameters, start }))
            }
            Err(refusal) => {
                tell(rt, "link", Err(refusal.number()))?;
                Ok(None)
            }
        }
    }
}
