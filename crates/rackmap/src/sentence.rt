// A refusal told to people.
use pci::fault::Fault;
use pci::{Loss, Name, Register, Space};
use std::fmt;

// A sentence that names what was wrong and where.
#[derive(Clone, Copy)]
pub struct Sentence(pub Fault);

impl fmt::Display for Sentence {
    fn fmt<W: fmt::Write>(&self, f: &mut fmt::Formatter<W>) -> fmt::Result {
        match self.0 {
            Fault::Torn { line } => write!(f, "line {line} of the machine file breaks its form"),
            Fault::Unlawful { node, law } => {
                write!(f, "node {node} of the machine breaks law {}", law.number())
            }
            Fault::Lost(Loss { register }) => {
                let Register { at, offset } = register;
                write!(f, "the access was lost at offset {offset} of {}", Place(at))
            }
            Fault::Strange { at, kind } => {
                write!(
                    f,
                    "kind {kind} is neither endpoint nor bridge, at {}",
                    Place(at)
                )
            }
            Fault::Full { at } => {
                write!(f, "the book is full with 64 functions, at {}", Place(at))
            }
            Fault::Spent { at, last } => {
                write!(
                    f,
                    "no bus number up to {last} is left for the bridge {}",
                    Place(at)
                )
            }
            Fault::Crooked { at, bar } => {
                write!(f, "BAR {bar} reads back no size, at {}", Place(at))
            }
            Fault::Large { at, bar } => {
                write!(
                    f,
                    "BAR {bar} asks for more than 256 bytes of I/O, at {}",
                    Place(at)
                )
            }
            Fault::Aperture(space) => {
                write!(
                    f,
                    "the bounds of the {} aperture break its rule",
                    SpaceWord(space)
                )
            }
            Fault::Short(space) => {
                write!(
                    f,
                    "the {} aperture is too short for the rack",
                    SpaceWord(space)
                )
            }
            Fault::WrongBook => write!(f, "the book is at another stage than the job"),
            Fault::NoRow { row } => write!(f, "the book has no row {row}"),
            Fault::NoAddress => write!(f, "no I/O address is above FFFFh"),
            Fault::Narrow { kept } => write!(f, "the map has no room past its first {kept} bytes"),
        }
    }
}

// A name as bus:device.function.
#[derive(Clone, Copy)]
struct Place(Name);

impl fmt::Display for Place {
    fn fmt<W: fmt::Write>(&self, f: &mut fmt::Formatter<W>) -> fmt::Result {
        let Name {
            bus,
            device,
            function,
        } = self.0;
        write!(f, "{bus:02X}:{device:02X}.{function:X}")
    }
}

// The word for a space.
#[derive(Clone, Copy)]
struct SpaceWord(Space);

impl fmt::Display for SpaceWord {
    fn fmt<W: fmt::Write>(&self, f: &mut fmt::Formatter<W>) -> fmt::Result {
        f.write_str(match self.0 {
            Space::Memory => "memory",
            Space::Io => "I/O",
        })
    }
}
