// The laws on a node's dwords.
ghost use Rattle.std.specs.Prelude.{◌≡◌, slice_range};
ghost use Rattle.std.specs.List.{list_all};
ghost use Rattle.laws.specs.Lawful.{bars, enabled, windows_masked, windows_zero, cleared, formed, lawful_identity, lawful_command, lawful_bridge, lawful_bars};
ghost use Rattle.machine.specs.Machine.{mask};

use machine::{Dword, IO_WINDOW_MASK, MEMORY_WINDOW_MASK, NUMBERS_MASK, Node};
use pci::field::is_absent;
use pci::kind::Kind;

// The BAR dwords, from 10h on.
fn bars(n: &Node) -> &[Dword]
    ensures { result.now ≡ bars n.now }
{
    match n.decoded_kind() {
        Ok(Kind::Endpoint) => &n.dwords[4..10],
        Ok(Kind::Bridge) => &n.dwords[4..6],
        Err(_) => &[],
    }
}

// Law 4.
pub fn keeps_identity(n: &Node) -> bool
    ensures { result ≡ lawful_identity n.now }
{
    n.dwords[0].mask == 0
        && !is_absent(n.dwords[0].value)
        && n.dwords[3].mask / 0x1_0000 % 0x100 == 0
}

// Whether the space of a BAR dword can be turned on, with this mask of 04h.
fn is_enabled(command: u32, bar: &Dword) -> bool
    ensures { result ≡ enabled command bar.now }
{
    if bar.value % 2 == 1 {
        command % 2 == 1
    } else {
        bar.mask == 0 || command / 2 % 2 == 1
    }
}

fn all_enabled(n: &Node) -> bool
    ensures { result ≡ list_all (enabled (mask n.now 1)) (bars n.now) }
{
    let command = n.dwords[1].mask;
    bars(n).iter().all(|bar| is_enabled(command, bar))
}

// Law 5.
pub fn keeps_command(n: &Node) -> bool
    ensures { result ≡ lawful_command n.now }
{
    let Dword { value, mask } = n.dwords[1];
    (value % 0x1_0000 == 0 && mask / 0x1_0000 == 0)
        && (!n.is_bridge() || mask % 4 == 3)
        && all_enabled(n)
}

// Whether 18h, 1Ch and 20h have a bridge's masks.
fn is_masked(n: &Node) -> bool
    ensures { result ≡ windows_masked n.now }
{
    n.dwords[6].mask % 0x100_0000 == NUMBERS_MASK
        && n.dwords[7].mask == IO_WINDOW_MASK
        && n.dwords[8].mask == MEMORY_WINDOW_MASK
}

// Whether the bits under these masks and the rest of 20h are zero.
fn is_zero(n: &Node) -> bool
    ensures { result ≡ windows_zero n.now }
{
    n.dwords[6].value % 0x100_0000 == 0
        && n.dwords[7].value & IO_WINDOW_MASK == 0
        && n.dwords[8].value == 0
}

fn is_cleared(d: &Dword) -> bool
    ensures { result ≡ cleared d.now }
{
    d.value == 0 && d.mask == 0
}

// Whether 24h to 30h are zero with mask 0.
fn all_cleared(n: &Node) -> bool
    ensures { result ≡ list_all cleared (slice_range n.now.dwords 9 13) }
{
    n.dwords[9..13].iter().all(is_cleared)
}

// Law 6.
pub fn keeps_bridge(n: &Node) -> bool
    ensures { result ≡ lawful_bridge n.now }
{
    !n.is_bridge() || is_masked(n) && is_zero(n) && all_cleared(n)
}

// Whether a BAR dword has the form of one.
fn is_formed(bar: &Dword) -> bool
    ensures { result ≡ formed bar.now }
{
    let fixed = if bar.value % 2 == 1 { 3 } else { 15 };
    bar.mask & fixed == 0 && bar.value & !(bar.mask | fixed) == 0
}

// Law 7.
pub fn keeps_bars(n: &Node) -> bool
    ensures { result ≡ lawful_bars n.now }
{
    bars(n).iter().all(is_formed)
}
