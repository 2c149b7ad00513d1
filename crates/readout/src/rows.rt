use crate::layout::Field;
use crate::value::Value;
use std::{fmt, io};

// A field of a message, and what it says.
#[derive(Clone, Copy)]
pub struct Row {
    pub field: Field,
    pub value: Value,
}

// At most four octets in hexadecimal, and spaces for those that there are not. The padding, and the space behind each octet,
// are this table's own: other programs print octets in other forms.
#[derive(Clone, Copy)]
struct Octets<'a>(&'a [u8]);

impl fmt::Display for Octets<'_> {
    fn fmt<W: fmt::Write>(&self, f: &mut fmt::Formatter<W>) -> fmt::Result {
        for octet in self.0 {
            write!(f, "{octet:02X} ")?;
        }
        for _ in self.0.len()..4 {
            write!(f, "   ")?;
        }
        Ok(())
    }
}

// Fields of a message: the first octet of each, its name, its octets and what they say.
pub fn show_rows(rt: &HostRuntime, message: &[u8], rows: &[Row]) -> io::Result<()> {
    for Row { field, value } in rows {
        let Field {
            name,
            first,
            last,
            ..
        } = *field;
        let octets = Octets(message.get(first..=last).unwrap_or(&[]));
        println!(rt; "   {first:>5}  {name:<19}  {octets}{value}")?;
    }
    Ok(())
}
