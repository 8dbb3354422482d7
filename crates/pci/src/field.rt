// Configuration dwords: their byte offsets, and the fields that a scan reads and writes.
ghost use Rattle.std.specs.Prelude.{◌≡◌};
ghost use Rattle.pci.specs.Fields.{absent, kind_of, several};

// Vendor and device.
pub const IDENTITY: u8 = 0x00;
// Kind and the bit for several functions.
pub const HEADER: u8 = 0x0C;
// A bridge's bus numbers.
pub const NUMBERS: u8 = 0x18;

// Whether 00h says that nothing is there.
pub fn is_absent(id: u32) -> bool
    ensures { result ≡ absent id }
{
    id % 0x1_0000 == 0xFFFF
}

// The number of the kind in 0Ch: 0 endpoint, 1 bridge.
pub fn kind_in(header: u32) -> u8
    ensures { result ≡ kind_of header }
{
    (header / 0x1_0000 % 0x80) as u8
}

// Whether 0Ch says that the device has functions beside function 0.
pub fn has_several(header: u32) -> bool
    ensures { result ≡ several header }
{
    header / 0x80_0000 % 2 == 1
}
