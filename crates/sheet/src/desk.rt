// All the memory of a run but its buffers.
ghost use Rattle.std.specs.Prelude.{◌≡◌, true};
ghost use Rattle.book.specs.Stages.{same_stage};
ghost use Rattle.book.specs.declared.book.Stage.TheVariants.{Fresh};

use book::book::Book;
use rackfile::room::Room;
use std::alloc::{AllocError, Global};

// Room for the nodes of a file, and a book that is still fresh.
#[derive(Drop)]
pub struct Desk {
    pub(crate) room: Room,
    pub(crate) book: Book,
    ghost fresh: { same_stage book.stage Fresh ≡ true },
}

impl Desk {
    // Asks for all of it at once.
    pub fn new(heap: Global) -> Result<Desk, AllocError> {
        let room = Room::new(heap)?;
        let book = Book::new(heap)?;
        Ok(Desk { room, book })
    }
}
