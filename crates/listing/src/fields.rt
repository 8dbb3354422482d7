// The fields of a line, and their bytes.
ghost use Rattle.std.specs.Prelude.{◌≡◌};
ghost use Rattle.listing.specs.Kept.{Adds};
ghost use Rattle.listing.specs.Fields.{name, ids, layer as layer_of, field as bytes_of};

use super::digits::hex;
use super::kept::{Line, NoRoom};
use itoa::Buffer;
use pci::Name;
use pci::fault::Layer;

// A field of a line after its first.
#[derive(Clone, Copy)]
pub(crate) enum Field {
    // A function's name, bus:device.function.
    At(Name),
    // No name.
    Dash,
    // Dword 00h as vendor:device.
    Ids(u32),
    // A bus number, in two hexadecimal digits.
    Bus(u8),
    // A number, in decimal digits.
    Decimal(u64),
    // The word for a layer.
    In(Layer),
}

// bus:device.function
fn name_bytes(at: Name) -> [u8; 7]
    ensures { result ≡ name at }
{
    let [b1, b0] = hex::<2>(at.bus as u32);
    let [d1, d0] = hex::<2>(at.device as u32);
    let [f0] = hex::<1>(at.function as u32);
    [b1, b0, b':', d1, d0, b'.', f0]
}

// vendor:device
fn ids_bytes(id: u32) -> [u8; 9]
    ensures { result ≡ ids id }
{
    let vendor = id % 0x1_0000;
    let device = id / 0x1_0000;
    let [v3, v2, v1, v0] = hex::<4>(vendor);
    let [d3, d2, d1, d0] = hex::<4>(device);
    [v3, v2, v1, v0, b':', d3, d2, d1, d0]
}

// The word for a layer.
fn layer_bytes(layer: Layer) -> &'static [u8]
    ensures { result.now ≡ layer_of layer }
{
    match layer {
        Layer::File => b"file",
        Layer::Access => b"access",
        Layer::List => b"list",
        Layer::Job => b"job",
    }
}

impl Line<'_> {
    // Adds the bytes of a field.
    pub(crate) fn add_field(&mut self, field: Field) -> Result<(), NoRoom>
        ensures { Adds result self.old (bytes_of field) self.new }
    {
        match field {
            Field::At(at) => self.add(&name_bytes(at)),
            Field::Dash => self.add(b"-"),
            Field::Ids(id) => self.add(&ids_bytes(id)),
            Field::Bus(bus) => self.add(&hex::<2>(bus as u32)),
            Field::Decimal(n) => self.add(Buffer::new().format(n).as_bytes()),
            Field::In(layer) => self.add(layer_bytes(layer)),
        }
    }
}
