// The refusals, and what each of them tells.
ghost use Rattle.std.specs.Prelude.{◌≡◌};
ghost use Rattle.pci.specs.declared.fault.Fault.TheVariants.{Lost};
ghost use Rattle.pci.specs.Faults.{told as tells, law_number, space_number, ToldApart};

use super::{Law, Loss, Name, Register, Space};

// A refusal, with what it is about.
#[derive(Clone, Copy, PartialEq, Eq)]
pub enum Fault {
    // A line breaks the machine file's form.
    Torn { line: u32 },
    // A node breaks a law.
    Unlawful { node: usize, law: Law },
    // The access was lost.
    Lost(Loss),
    // A function is neither endpoint nor bridge.
    Strange { at: Name, kind: u8 },
    // The book has no row left for a function.
    Full { at: Name },
    // A bridge needs a bus number above the last bus.
    Spent { at: Name, last: u8 },
    // A block's probed value is no size.
    Crooked { at: Name, bar: u8 },
    // An I/O block is above 256 bytes.
    Large { at: Name, bar: u8 },
    // An aperture's bounds are not whole granules within the space.
    Aperture(Space),
    // What is to be placed passes the aperture.
    Short(Space),
    // The book's stage is not the job's.
    WrongBook,
    // The row is not in the book.
    NoRow { row: usize },
    // The address is above the highest of I/O.
    NoAddress,
    // The next line does not fit the listing.
    Narrow { kept: usize },
}

// The layer at which a call is refused.
#[derive(Clone, Copy, PartialEq, Eq)]
pub enum Layer {
    File,
    Access,
    List,
    Job,
}

// A refusal as its `no` line gives it.
#[derive(Clone, Copy, PartialEq, Eq)]
pub struct Told {
    pub number: u8,
    pub layer: Layer,
    pub name: Option<Name>,
    pub p: u64,
    pub q: u64,
}

impl Law {
    // Its place in the order of the test, from 1.
    pub fn number(self) -> u8
        ensures { result ≡ law_number self }
    {
        self as u8
    }
}

impl Space {
    // 1 memory, 2 I/O.
    pub fn number(self) -> u8
        ensures { result ≡ space_number self }
    {
        self as u8
    }
}

impl From<Loss> for Fault {
    ghost from_gives = { λ loss fault. fault ≡ Lost loss };

    fn from(loss: Loss) -> Fault {
        Self::Lost(loss)
    }
}

impl Fault {
    // Number, layer, name concerned, P and Q.
    pub fn told(self) -> Told
        ensures { result ≡ tells self }
    {
        let (number, layer, name, p, q) = match self {
            Fault::Torn { line } => (1, Layer::File, None, line as u64, 0),
            Fault::Unlawful { node, law } => {
                (2, Layer::File, None, node as u64, law.number() as u64)
            }
            Fault::Lost(Loss { register }) => {
                let Register { at, offset } = register;
                (3, Layer::Access, Some(at), offset as u64, 0)
            }
            Fault::Strange { at, kind } => (4, Layer::Job, Some(at), kind as u64, 0),
            Fault::Full { at } => (5, Layer::Job, Some(at), 64, 0),
            Fault::Spent { at, last } => (6, Layer::Job, Some(at), last as u64, 0),
            Fault::Crooked { at, bar } => (7, Layer::Job, Some(at), bar as u64, 0),
            Fault::Large { at, bar } => (8, Layer::Job, Some(at), bar as u64, 0),
            Fault::Aperture(space) => (9, Layer::Job, None, space.number() as u64, 0),
            Fault::Short(space) => (10, Layer::Job, None, space.number() as u64, 0),
            Fault::WrongBook => (11, Layer::Job, None, 0, 0),
            Fault::NoRow { row } => (12, Layer::Job, None, row as u64, 0),
            Fault::NoAddress => (13, Layer::Job, None, 2, 0),
            Fault::Narrow { kept } => (14, Layer::List, None, kept as u64, 0),
        };
        Told {
            number,
            layer,
            name,
            p,
            q,
        }
    }
}

// The theorem that no two refusals tell the same.
pub fn told_apart()
    ensures { ToldApart }
{}
