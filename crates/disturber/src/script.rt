use crate::disturbance::Disturbance;
use arrayvec::ArrayVec;
use carrier::cell::Cell;

// No script has more codes.
pub(crate) const MOST_CODES: usize = 64;

// How many of its codes a script has used, the disturbances that they stand for, and the message that a disturber keeps. The
// number stands first: beside the empty cell the compiler clears both at once, and then a whole disturber for each link.
#[derive(Drop)]
pub struct Script {
    pub(crate) next: usize,
    pub(crate) codes: ArrayVec<Disturbance, MOST_CODES>,
    pub(crate) kept: Cell,
}
