// Where the chains of a lane memory begin. Slots go by their numbers, since the layout of the lent memory is a rule. 0 is no
// slot here as it is in the memory: a head goes into a slot and comes out of one as it stands, and an `Option` would be turned
// to that number and back each time.
#[derive(Clone, Copy, Default)]
pub struct Heads {
    // how many slots are in use
    pub(crate) slots: u16,
    // the first and the last slot that wait
    pub(crate) first: u16,
    pub(crate) last: u16,
    // the first free slot
    pub(crate) free: u16,
}
