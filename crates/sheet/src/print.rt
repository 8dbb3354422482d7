// A machine file read, tested, scanned through the direct board, and listed.
ghost use Rattle.std.specs.Prelude.{◌≡◌, ◌≤◌, true, length, take, Some, None};
ghost use Rattle.book.specs.Stages.{same_stage};
ghost use Rattle.book.specs.declared.book.Stage.TheVariants.{Fresh as at_fresh};
ghost use Rattle.sheet.specs.Sheet.{Booked, Sheet, no_lines, OneSheet};

use super::desk::Desk;
use access::board::Board;
use book::book::Book;
use job::Fresh;
use laws::judge;
use listing::{list_fault, list_numbers};
use pci::fault::Fault;
use rackfile::reader::{Rack, read};
use rackfile::room::Room;

// The most bytes of a `no` line.
pub const NO_LINE: usize = 64;

// What a run has made: so many bytes of the map, so many of the `no` line, and the refusal that it tells.
#[derive(Clone, Copy)]
pub struct Ended {
    pub map: usize,
    pub no: usize,
    pub fault: Option<Fault>,
}

// Reads the file, tests the laws, and books the rack's functions.
fn number(room: Room, book: &mut Book, text: &[u8]) -> Result<(), Fault>
    requires { same_stage book.old.stage at_fresh ≡ true }
    ensures { Booked text.now result book.new }
{
    let Rack {
        apertures: _,
        lose,
        machine,
    } = read(room, text)?;
    judge(&machine)?;
    let mut board = Board::new(machine, lose);
    Fresh::new().scan(&mut board, book)?;
    Ok(())
}

// Puts the `no` line of a refusal, where so many bytes of the map are kept.
fn refuse(no: &mut [u8], map: usize, fault: Fault) -> Ended
    requires { 64 ≤ length no.old }
    ensures map { result.map ≡ map }
    ensures fault { result.fault ≡ Some fault }
    ensures line { take result.no no.new ≡ no_lines (Some fault) }
    ensures within { result.no ≤ length no.new }
{
    let len = list_fault(no, 0, fault).unwrap();
    Ended {
        map,
        no: len,
        fault: Some(fault),
    }
}

// Prints what a machine file comes to: the map into one buffer, and the `no` line of a refusal into another.
// Which it is follows from the bytes of the file and the room for the map (`one_sheet`). Of the bytes past those made only their number is known (`past_left_open`).
pub fn print_rack(desk: Desk, text: &[u8], map: &mut [u8], no: &mut [u8; NO_LINE]) -> Ended
    ensures sheet { Sheet text.now (length map.old) result.fault (take result.map map.new) }
    ensures no_line { take result.no no.new ≡ no_lines result.fault }
    ensures within { (result.map ≤ length map.new) × (result.no ≤ 64) }
    ensures past_left_open { length map.new ≡ length map.old }
{
    let Desk { room, mut book } = desk;
    if let Err(fault) = number(room, &mut book, text) {
        return refuse(no, 0, fault);
    }
    match list_numbers(map, &book) {
        Ok(len) => Ended {
            map: len,
            no: 0,
            fault: None,
        },
        Err(fault @ Fault::Narrow { kept }) => refuse(no, kept, fault),
        Err(fault) => refuse(no, 0, fault),
    }
}

// The theorem that no file prints two things.
pub fn one_sheet()
    ensures { OneSheet }
{}
