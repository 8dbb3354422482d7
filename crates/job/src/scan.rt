// The call scan: a fresh job and a fresh book become a numbered job and a numbered book.
ghost use Rattle.std.specs.Prelude.{◌≡◌};
ghost use Rattle.job.specs.Scan.{Scanned};

use super::{Fresh, Numbered, Refused};
use access::Access;
use book::book::{Book, Stage};
use pci::fault::Fault;
use scanning::walk::scan_rack;

impl Fresh {
    // A new job.
    pub fn new() -> Fresh {
        Fresh {}
    }

    // Books every function of the rack and numbers its buses.
    pub fn scan<A: Access>(
        self,
        access: &mut A,
        book: &mut Book,
    ) -> Result<Numbered, Refused<Fresh>>
        ensures when_lost_left_open { Scanned (A.state access.old) book.old result (A.state access.new) book.new }
    {
        if !book.is_at(Stage::Fresh) {
            return Err(Refused {
                job: self,
                fault: Fault::WrongBook,
            });
        }
        if let Err(fault) = scan_rack(access, &mut book.functions) {
            book.functions.clear();
            return Err(Refused { job: self, fault });
        }
        book.stage = Stage::Numbered;
        Ok(Numbered {
            functions: book.count() as u8,
        })
    }
}

impl Numbered {
    // How many functions are booked.
    pub fn functions(&self) -> u8
        ensures { result ≡ self.now.functions }
    {
        self.functions
    }
}
