ghost use Rattle.std.specs.Prelude.{◌≡◌, ◌≤◌, length};
ghost use Rattle.message.specs.Response.{longest};

use message::response::LONGEST;

// A place for one message, which stands at the start of the octets. No message is without octets, so size 0 is none. It is no
// `ArrayVec`: that writes blanks over the message before, so that a short message would cost what a long one before it did.
#[derive(Drop)]
pub struct Cell {
    pub(crate) octets: [u8; LONGEST],
    pub(crate) size: usize,
    ghost fits: { size ≤ longest },
    ghost whole: { length octets ≡ longest },
}
