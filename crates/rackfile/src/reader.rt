// The lines of a text, and the rack that they make.
ghost use Rattle.rackfile.specs.Reading.{File, OneReading};
ghost use Rattle.rackfile.specs.Racks.{meant};
ghost use Rattle.rackfile.specs.Written.{ComesFrom, ReadsBack};
ghost use Rattle.rackfile.specs.Dwords.{NodeTold};

use super::builder::Builder;
use super::line::Apertures;
use super::room::Room;
use machine::Machine;
use pci::fault::Fault;

// The most bytes of a file.
const LIMIT: usize = 65536;

// What a machine file says: the apertures, the number of the access that is lost, if any, and the nodes.
#[derive(Drop)]
pub struct Rack {
    pub apertures: Apertures,
    pub lose: Option<u32>,
    pub machine: Machine,
}

// The rack that the text says, or the number of the first line that breaks the form, from 1.
pub fn read(room: Room, text: &[u8]) -> Result<Rack, Fault>
    ensures { File text.now (meant result) }
{
    let front = &text[..text.len().min(LIMIT)];
    let mut builder = Builder::new(room);
    for piece in front.split_inclusive(|b| *b == b'\n') {
        let [bytes @ .., b'\n'] = piece else {
            return Err(builder.torn());
        };
        builder.add(bytes)?;
    }
    let torn = builder.torn();
    let Builder {
        apertures,
        lose,
        machine,
        ..
    } = builder;
    match apertures {
        Some(apertures) if text.len() <= LIMIT => Ok(Rack {
            apertures,
            lose,
            machine,
        }),
        _ => Err(torn),
    }
}

// The theorem that no file says two things.
pub fn one_reading()
    ensures { OneReading }
{}

// The theorem that the text of lines in their order is read back.
pub fn reads_back()
    ensures { ReadsBack }
{}

// The theorem that a file that is read is the text of lines in their order.
pub fn comes_from()
    ensures { ComesFrom }
{}

// The theorem of what a line `fn` and its lines `rg` make of a node's dwords.
pub fn node_told()
    ensures { NodeTold }
{}
