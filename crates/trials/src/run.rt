// One run of the library, held to what it should print.
use super::few::FewBuses;
use access::board::Board;
use book::book::Book;
use job::Fresh;
use listing::list_fault;
use rackfile::reader::read;
use rackfile::room::Room;
use sheet::desk::Desk;
use sheet::print::{NO_LINE, print_rack};
use std::alloc::Global;
use std::test::Fail;

// A test goes on only where this holds.
pub fn check(holds: bool) -> Result<(), Fail> {
    if holds {
        Ok(())
    } else {
        Err(Fail::new("not what it should be"))
    }
}

// The text printed with room for so many bytes of map: the lines, and the `no` line.
pub fn prints(heap: Global, room: usize, text: &[u8], lines: &[u8], no: &[u8]) -> Result<(), Fail> {
    let desk = Desk::new(heap)?;
    let mut map = vec![in heap; 0u8; room]?;
    let mut line = [0u8; NO_LINE];
    let ended = print_rack(desk, text, map.as_mut_slice(), &mut line);
    let (map_len, no_len) = (ended.map, ended.no);
    check(&map[0..map_len] == lines)?;
    check(&line[0..no_len] == no)
}

// A granted run, and a refused one.
pub fn granted(heap: Global, text: &[u8], lines: &[u8]) -> Result<(), Fail> {
    prints(heap, 65_536, text, lines, b"")
}

pub fn refused(heap: Global, text: &[u8], no: &[u8]) -> Result<(), Fail> {
    prints(heap, 65_536, text, b"", no)
}

// The refusal of a scan that reaches no bus above `last`.
pub fn spent(heap: Global, text: &[u8], last: u8, no: &[u8]) -> Result<(), Fail> {
    let rack = read(Room::new(heap)?, text).map_err(|_| Fail::new("torn"))?;
    let board = Board::new(rack.machine, rack.lose);
    let mut few = FewBuses { board, last };
    let mut book = Book::new(heap)?;
    let refused = Fresh::new()
        .scan(&mut few, &mut book)
        .err()
        .ok_or_else(|| Fail::new("granted"))?;
    let mut line = [0u8; NO_LINE];
    let len = list_fault(&mut line, 0, refused.fault).ok_or_else(|| Fail::new("too long"))?;
    check(len <= NO_LINE)?;
    check(&line[0..len] == no)
}
