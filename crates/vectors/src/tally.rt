use anyhow::ensure;
use std::fmt::Display;
use std::{fmt, io};

// A number, as its eight hexadecimal digits.
#[derive(Clone, Copy, PartialEq)]
struct Word(u32);

impl Display for Word {
    fn fmt<W: fmt::Write>(&self, f: &mut fmt::Formatter<W>) -> fmt::Result {
        write!(f, " 0x{:08X}", self.0)
    }
}

// Octets, each as its two hexadecimal digits. The space before each is these lines' own: other programs print octets in
// other forms.
#[derive(Clone, Copy, PartialEq)]
struct Octets<'a>(&'a [u8]);

impl Display for Octets<'_> {
    fn fmt<W: fmt::Write>(&self, f: &mut fmt::Formatter<W>) -> fmt::Result {
        for octet in self.0 {
            write!(f, " {octet:02X}")?;
        }
        Ok(())
    }
}

// Prints what is compared, and counts the vectors and how many of them differ.
#[derive(Clone, Copy)]
pub struct Tally<'a> {
    rt: &'a HostRuntime,
    compared: u32,
    differ: u32,
}

impl<'a> Tally<'a> {
    pub fn new(rt: &'a HostRuntime) -> Tally<'a> {
        Tally {
            rt,
            compared: 0,
            differ: 0,
        }
    }

    fn count(&mut self, same: bool) -> &'static str {
        self.compared = self.compared.saturating_add(1);
        if same {
            return "ok";
        }
        self.differ = self.differ.saturating_add(1);
        "DIFFERS"
    }

    // Compares what came with what it should be.
    fn compare<T: PartialEq + Display + Copy>(
        &mut self,
        name: &impl Display,
        expected: T,
        came: T,
    ) -> io::Result<()> {
        let verdict = self.count(expected == came);
        println!(self.rt; "{name}: expected{expected}, came{came}: {verdict}")
    }

    pub fn number(&mut self, name: &impl Display, expected: u32, came: u32) -> io::Result<()> {
        self.compare(name, Word(expected), Word(came))
    }

    pub fn octets(&mut self, name: &str, expected: &[u8], came: &[u8]) -> io::Result<()> {
        self.compare(&name, Octets(expected), Octets(came))
    }

    // Counts something that was compared many times.
    pub fn agrees(&mut self, name: &str, times: usize, same: bool) -> io::Result<()> {
        let verdict = self.count(same);
        println!(self.rt; "{name} of {times} messages agree: {verdict}")
    }

    // The last line; a difference is an error.
    pub fn end(&self) -> anyhow::Result<()> {
        let Tally {
            compared,
            differ,
            ..
        } = *self;
        println!(self.rt; "{compared} vectors, {differ} differ")?;
        ensure!(differ == 0, "some vectors differ");
        Ok(())
    }
}
