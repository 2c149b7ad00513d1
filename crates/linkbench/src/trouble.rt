use script::expected::{BadLine, Expected};
use std::alloc::AllocError;
use std::io;
use thiserror::Error;

// Why a run ended early.
#[derive(Debug, Drop, Error)]
pub enum Trouble {
    #[error(transparent)]
    Stream(#[from] io::Error),
    #[error(transparent)]
    Line(#[from] BadLine),
    #[error("out of memory")]
    Memory(#[from(alloc)] AllocError),
}

impl Trouble {
    // The line of this number should have had something else.
    pub fn expected(number: u64, expected: Expected) -> Trouble {
        Trouble::Line(BadLine {
            number,
            fault: expected.into(),
        })
    }
}
