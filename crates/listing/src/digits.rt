// Hexadecimal digits.
ghost use Rattle.std.specs.Prelude.{◌≡◌, ◌<◌};
ghost use Rattle.pci.specs.Digits.{glyph, hex as digits_of};

// The upper-case digit of a number below 16.
fn digit(d: u8) -> u8
    requires { d < 16 }
    ensures { result ≡ glyph d }
{
    if d < 10 { b'0' + d } else { b'A' + (d - 10) }
}

// The lowest N digits of a number, the highest of them first.
// (By index, since nothing is known of an array after a loop over its `iter_mut().rev()`.)
pub(crate) fn hex<const N: usize>(x: u32) -> [u8; N]
    ensures { result ≡ digits_of N x }
{
    let mut digits = [0; N];
    let mut left = x;
    for i in (0..N).rev() {
        digits[i] = digit((left % 16) as u8);
        left /= 16;
    }
    digits
}
