ghost use Rattle.std.specs.Prelude.{◌≡◌, IfErr};

use crate::calls::{read_cycle, read_place, read_serve};
use crate::expected::{BadLine, Expected, LineFault};
use crate::line::Line;
use crate::settings::{read_carrier, read_codes, read_kind, read_parameters, read_start};
use crate::words::Words;
use std::alloc::Global;

fn read(heap: Global, text: &str) -> Result<Line, LineFault> {
    let mut words = Words::of(text);
    let Some(name) = words.words.next() else {
        return Ok(Line::Nothing);
    };
    if name.starts_with('#') {
        return Ok(Line::Nothing);
    }
    match name {
        "kind" => Ok(Line::Setting {
            setting: read_kind(words)?,
        }),
        "parameters" => Ok(Line::Setting {
            setting: read_parameters(words)?,
        }),
        "carrier" => Ok(Line::Setting {
            setting: read_carrier(words)?,
        }),
        "disturb" => Ok(Line::Setting {
            setting: read_codes(heap, words)?,
        }),
        "link" => Ok(Line::Link {
            start: read_start(words)?,
        }),
        "cycle" => Ok(Line::Call {
            call: read_cycle(words)?,
        }),
        "serve" => Ok(Line::Call {
            call: read_serve(words)?,
        }),
        "place" => Ok(Line::Call {
            call: read_place(heap, words)?,
        }),
        _ => Err(Expected::LineName.into()),
    }
}

// What the line of this number asks; a bad line is told by its number.
pub fn read_line(heap: Global, number: u64, text: &str) -> Result<Line, BadLine>
    ensures { IfErr result (λ bad. bad.number ≡ number) }
{
    read(heap, text).map_err(|fault| BadLine { number, fault })
}
