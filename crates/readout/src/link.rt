use crate::value::Value;
use message::making::Settings;
use message::parameters::{BaseId, Parameters};
use std::io;

// The parameters that both ends of the link are made with. It is proved that none passes its limit.
pub fn parameters() -> Parameters {
    let settings = Settings {
        consumer_id: 0x0A0B_0C0D,
        provider_id: 0xE0EA_6B40,
        base_id: BaseId::new(0x7296_2B91, 0x4AE6_FA75, 0x04B4_288D, 0x63AF_7DDC),
        level: 3,
        timeout: 500,
        error_interval: 60,
        operator_ack_necessary: true,
    };
    Parameters::new(settings).unwrap()
}

pub fn show(rt: &HostRuntime, parameters: &Parameters) -> io::Result<()> {
    let p = *parameters;
    println!(rt; "1. The parameters, the same at both ends of the link")?;
    let lines = [
        ("consumer id", Value::Identifier(p.consumer_id)),
        ("provider id", Value::Identifier(p.provider_id)),
        ("base id, word 1", Value::Identifier(p.base_id.w1)),
        ("base id, word 2", Value::Identifier(p.base_id.w2)),
        ("base id, word 3", Value::Identifier(p.base_id.w3)),
        ("base id, word 4", Value::Identifier(p.base_id.w4)),
        ("level", Value::Number(u32::from(p.level))),
        ("timeout, ms", Value::Number(p.timeout)),
        (
            "error interval, min",
            Value::Number(u32::from(p.error_interval)),
        ),
        (
            "acknowledgment needed",
            Value::Truth(p.operator_ack_necessary),
        ),
    ];
    for (name, value) in lines {
        println!(rt; "   {name:<21}  {value}")?;
    }
    Ok(())
}
