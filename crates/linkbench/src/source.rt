use crate::trouble::Trouble;
use script::expected::Expected;
use script::line::Line;
use script::reading::read_line;
use std::alloc::Global;
use std::io;
use std::io::{BufRead, Lines};

// A script, read line by line.
#[derive(Drop)]
pub struct Source<R> {
    lines: Lines<R>,
    // how many lines were read
    number: u64,
}

impl<R: BufRead + Drop> Source<R> {
    pub fn new(heap: Global, reader: R) -> Source<R> {
        Source {
            lines: reader.lines(heap),
            number: 0,
        }
    }
}

// What the line of this number asks.
#[inline(always)]
pub fn asked(heap: Global, number: u64, line: io::Result<String>) -> Result<Line, Trouble> {
    match line {
        Ok(text) => Ok(read_line(heap, number, text.as_str())?),
        Err(e) if e.kind() == io::ErrorKind::InvalidData => {
            Err(Trouble::expected(number, Expected::Text))
        }
        Err(e) => Err(Trouble::Stream(e)),
    }
}

// The lines, each by its number from 1.
impl<R: BufRead + Drop> Iterator for Source<R> {
    type Item = (u64, io::Result<String>);

    ghost remaining = { λ s. ⟦<Lines<R> as Iterator>⟧.remaining s.lines };

    fn next(&mut self) -> Option<(u64, io::Result<String>)> {
        let line = self.lines.next()?;
        self.number = self.number.saturating_add(1);
        Some((self.number, line))
    }
}
