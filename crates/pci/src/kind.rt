// What a function is.
ghost use Rattle.std.specs.Prelude.{◌≡◌};
ghost use Rattle.pci.specs.Fields.{kind_of};
ghost use Rattle.pci.specs.Kinds.{decoded, Decodes};

use super::field::kind_in;

// The kinds that there are, with their numbers.
#[derive(Clone, Copy, PartialEq, Eq)]
pub enum Kind {
    Endpoint = 0,
    Bridge = 1,
}

// A number that is no kind's.
#[derive(Clone, Copy, PartialEq, Eq)]
pub struct Strange {
    pub number: u8,
}

impl TryFrom<u8> for Kind {
    type Error = Strange;

    ghost try_from_gives = { Decodes };

    fn try_from(number: u8) -> Result<Kind, Strange> {
        match number {
            0 => Ok(Kind::Endpoint),
            1 => Ok(Kind::Bridge),
            _ => Err(Strange { number }),
        }
    }
}

impl Kind {
    // The kind that 0Ch says.
    pub fn in_header(header: u32) -> Result<Kind, Strange>
        ensures { result ≡ decoded (kind_of header) }
    {
        Kind::try_from(kind_in(header))
    }
}
