ghost use Rattle.std.specs.Prelude.{◌≡◌};
ghost use Rattle.script.specs.Readings.{word_read};

use crate::expected::Expected;
use std::str::SplitWhitespace;
use text::number::number_of;

// The words of a line that are still to be read.
#[derive(Drop)]
pub(crate) struct Words<'a> {
    pub words: SplitWhitespace<'a>,
}

impl<'a> Words<'a> {
    pub(crate) fn of(line: &'a str) -> Words<'a> {
        Words {
            words: line.split_whitespace(),
        }
    }

    // The next word.
    pub(crate) fn word(&mut self, expected: Expected) -> Result<&'a str, Expected> {
        self.words.next().ok_or(expected)
    }

    // What is read of the next word.
    pub(crate) fn read<T, F: FnOnce(&'a str) -> Option<T>>(
        &mut self,
        expected: Expected,
        read: F,
    ) -> Result<T, Expected>
        requires { F.IsAlwaysCallable read }
    {
        read(self.word(expected)?).ok_or(expected)
    }

    // What the next word stands for, which is one of two.
    pub(crate) fn one_of<T: Copy>(
        &mut self,
        expected: Expected,
        words: [(&str, T); 2],
    ) -> Result<T, Expected> {
        one_of(self.word(expected)?, words).ok_or(expected)
    }

    // What is read of what stands after the key in the next word.
    pub(crate) fn value<T, F: FnOnce(&'a str) -> Option<T>>(
        &mut self,
        key: &str,
        expected: Expected,
        read: F,
    ) -> Result<T, Expected>
        requires { F.IsAlwaysCallable read }
    {
        let value = self.word(expected)?.strip_prefix(key).ok_or(expected)?;
        read(value).ok_or(expected)
    }

    // There is no further word.
    pub(crate) fn end(mut self) -> Result<(), Expected> {
        match self.words.next() {
            None => Ok(()),
            Some(_) => Err(Expected::End),
        }
    }
}

// A number of 32 bits.
pub(crate) fn short_number(text: &str) -> Option<u32>
    ensures { result ≡ word_read text.now }
{
    u32::try_from(number_of(text)?).ok()
}

// What the text stands for, which is one of two words.
pub(crate) fn one_of<T: Copy>(text: &str, words: [(&str, T); 2]) -> Option<T> {
    for (word, meant) in words {
        if word == text {
            return Some(meant);
        }
    }
    None
}
