use std::fmt;

// What a field says.
#[derive(Clone, Copy)]
pub enum Value {
    Pulses(u32),
    Centidegrees(i16),
    Truth(bool),
    Identifier(u32),
    Number(u32),
    // the flags of a request and of a response
    Asked(u8),
    Answered(u8),
}

impl fmt::Display for Value {
    fn fmt<W: fmt::Write>(&self, f: &mut fmt::Formatter<W>) -> fmt::Result {
        match self {
            Value::Pulses(pulses) => write!(f, "{pulses} pulses"),
            Value::Centidegrees(hundredths) => write!(f, "{hundredths} hundredths of a degree"),
            Value::Truth(truth) => write!(f, "{truth}"),
            Value::Identifier(word) => write!(f, "0x{word:08X}"),
            Value::Number(number) => write!(f, "{number}"),
            Value::Asked(flags) => write!(
                f,
                "{flags:03b}: substitute shown, acknowledgment requested, error"
            ),
            Value::Answered(flags) => write!(
                f,
                "{flags:03b}: test mode, substitute, acknowledgment"
            ),
        }
    }
}
