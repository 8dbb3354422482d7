// One line of a machine file.
ghost use Rattle.std.specs.Prelude.{◌≡◌, ℕ, List, [], ◌∷◌, codes};
ghost use Rattle.rackfile.specs.Text.{Reads, parted, given};
ghost use Rattle.rackfile.specs.Form.{words, Holds};

use super::field::{hexadecimal, number};
use machine::Dword;

// The lowest and the highest address of an aperture.
#[derive(Clone, Copy)]
pub struct Span {
    pub low: u32,
    pub high: u32,
}

// The apertures in which memory and I/O are placed.
#[derive(Clone, Copy)]
pub struct Apertures {
    pub memory: Span,
    pub io: Span,
}

// What a line names of a dword.
#[derive(Clone, Copy)]
pub(crate) struct Named {
    pub offset: u8,
    pub dword: Dword,
}

// What one line says.
#[derive(Clone, Copy)]
pub(crate) enum Line {
    Apertures(Apertures),
    Lose(u32),
    Function {
        parent: Option<u8>,
        device: u8,
        function: u8,
    },
    Register(Named),
}

// `ap` with the two ends of the memory aperture and those of the I/O aperture.
fn read_apertures(a: &[u8], b: &[u8], c: &[u8], d: &[u8]) -> Option<Line>
    ensures { Reads words Holds (codes "ap" ∷ a.now ∷ b.now ∷ c.now ∷ d.now ∷ []) result }
{
    let memory = Span {
        low: hexadecimal(a, 8)?,
        high: hexadecimal(b, 8)?,
    };
    let io = Span {
        low: hexadecimal(c, 8)?,
        high: hexadecimal(d, 8)?,
    };
    Some(Line::Apertures(Apertures { memory, io }))
}

// `lose` with the number of the access that is lost.
fn read_lose(n: &[u8]) -> Option<Line>
    ensures { Reads words Holds (codes "lose" ∷ n.now ∷ []) result }
{
    match number(n, 1_000_000)? {
        0 => None,
        n => Some(Line::Lose(n)),
    }
}

// `fn` with the parent, `-` for the host, the device and the function of a node.
fn read_function(p: &[u8], d: &[u8], f: &[u8]) -> Option<Line>
    ensures { Reads words Holds (codes "fn" ∷ p.now ∷ d.now ∷ f.now ∷ []) result }
{
    let parent = match p {
        b"-" => None,
        _ => Some(number(p, 79)? as u8),
    };
    let device = number(d, 31)? as u8;
    let function = number(f, 7)? as u8;
    Some(Line::Function {
        parent,
        device,
        function,
    })
}

// `rg` with the offset, the value and the mask of a dword.
fn read_register(o: &[u8], v: &[u8], m: &[u8]) -> Option<Line>
    ensures { Reads words Holds (codes "rg" ∷ o.now ∷ v.now ∷ m.now ∷ []) result }
{
    let offset = hexadecimal(o, 2)? as u8;
    let dword = Dword {
        value: hexadecimal(v, 8)?,
        mask: hexadecimal(m, 8)?,
    };
    if offset % 4 != 0 {
        return None;
    }
    Some(Line::Register(Named { offset, dword }))
}

// The first six fields of a line, which commas part; no line has more than five.
fn fields(line: &[u8]) -> [Option<&[u8]>; 6]
    ensures { (more : List (List ℕ)) × (parted 44 line.now ≡ given result more) }
{
    let mut fields = line.split(|b| *b == b',');
    [
        fields.next(),
        fields.next(),
        fields.next(),
        fields.next(),
        fields.next(),
        fields.next(),
    ]
}

// The line that these bytes write.
pub(crate) fn parse(line: &[u8]) -> Option<Line>
    ensures { Reads words Holds (parted 44 line.now) result }
{
    match fields(line) {
        [Some(b"ap"), Some(a), Some(b), Some(c), Some(d), None] => read_apertures(a, b, c, d),
        [Some(b"lose"), Some(n), None, ..] => read_lose(n),
        [Some(b"fn"), Some(p), Some(d), Some(f), None, _] => read_function(p, d, f),
        [Some(b"rg"), Some(o), Some(v), Some(m), None, _] => read_register(o, v, m),
        _ => None,
    }
}
