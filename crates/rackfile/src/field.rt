// The fields of a line, and the numbers that stand in them.
ghost use Rattle.std.specs.Prelude.{◌^◌, ◌<◌, ◌≤◌, decimal};
ghost use Rattle.pci.specs.Digits.{glyph, hex};
ghost use Rattle.rackfile.specs.Text.{Reads};

// The value of an upper case hexadecimal digit.
fn digit(b: u8) -> Option<u32>
    ensures { Reads glyph (λ d. d < 16) b result }
{
    match b {
        b'0'..=b'9' => Some((b - b'0') as u32),
        b'A'..=b'F' => Some((b - b'A') as u32 + 10),
        _ => None,
    }
}

// The number that the field writes in `width` hexadecimal digits.
// (`from_str_radix` takes lower case and signs too.)
pub fn hexadecimal(field: &[u8], width: usize) -> Option<u32>
    requires { width ≤ 8 }
    ensures { Reads (hex width) (λ x. x < 16 ^ width) field.now result }
{
    if field.len() != width {
        return None;
    }
    let mut value: u32 = 0;
    for b in field {
        value = value * 16 + digit(*b)?;
    }
    Some(value)
}

// The number up to `limit` that the field writes in decimal with no leading zero.
pub fn number(field: &[u8], limit: u32) -> Option<u32>
    requires { limit ≤ 100000000 }
    ensures { Reads decimal (λ x. x ≤ limit) field.now result }
{
    if field.is_empty() {
        return None;
    }
    if field.len() > 1 && field[0] == b'0' {
        return None;
    }
    let mut value: u32 = 0;
    for b in field {
        if !b.is_ascii_digit() {
            return None;
        }
        value = value * 10 + (*b - b'0') as u32;
        if value > limit {
            return None;
        }
    }
    Some(value)
}
