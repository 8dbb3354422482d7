// Which node a name selects.
ghost use Rattle.std.specs.Prelude.{◌≡◌, ◌<◌, length, IfSome, vec_len};
ghost use Rattle.pci.specs.Kinds.{decoded};
ghost use Rattle.pci.specs.Numbers.{in_dword};
ghost use Rattle.machine.specs.Machine.{value, secondary, subordinate, kind, bridge, passes, reaches, on_bus, hits, selected};

use super::{Machine, Node};
use pci::Name;
use pci::field::kind_in;
use pci::kind::{Kind, Strange};
use pci::numbers::Numbers;

impl Node {
    // The number of its kind: 0 endpoint, 1 bridge.
    pub fn kind(&self) -> u8
        ensures { result ≡ kind self.now }
    {
        kind_in(self.dwords[3].value)
    }

    // Its kind, where that is one of the two.
    pub fn decoded_kind(&self) -> Result<Kind, Strange>
        ensures { result ≡ decoded (kind self.now) }
    {
        Kind::try_from(self.kind())
    }

    pub fn is_bridge(&self) -> bool
        ensures { result ≡ bridge self.now }
    {
        matches!(self.decoded_kind(), Ok(Kind::Bridge))
    }

    // The bus numbers, which only a bridge has.
    pub fn numbers(&self) -> Numbers
        ensures { result ≡ in_dword (value self.now 6) }
    {
        Numbers::from(self.dwords[6].value)
    }

    pub fn secondary(&self) -> u8
        ensures { result ≡ secondary self.now }
    {
        self.numbers().secondary
    }

    pub fn subordinate(&self) -> u8
        ensures { result ≡ subordinate self.now }
    {
        self.numbers().subordinate
    }

    // Whether the bridge hands the bus number on to the bridges of its own bus.
    fn passes_on(&self, b: u8) -> bool
        ensures { result ≡ passes b self.now }
    {
        self.is_bridge() && self.secondary() < b && b <= self.subordinate()
    }
}

impl Machine {
    // Whether the bus number `b` comes down to the bus that `from` makes.
    fn comes_down(&self, b: u8, from: Option<u8>) -> bool
        ensures { result ≡ reaches (length self.now.nodes.items) self.now.nodes.items b from }
    {
        let mut at = from;
        for _ in 0..self.nodes.len() {
            let Some(p) = at else {
                return true;
            };
            let Some(node) = self.nodes.get(p as usize) else {
                return false;
            };
            if !node.passes_on(b) {
                return false;
            }
            at = node.parent;
        }
        at.is_none()
    }

    // Whether `b` selects on the bus that `parent` makes.
    fn is_on(&self, b: u8, parent: Option<u8>) -> bool
        ensures { result ≡ on_bus self.now.nodes.items b parent }
    {
        let Some(p) = parent else {
            return b == 0;
        };
        let Some(node) = self.nodes.get(p as usize) else {
            return false;
        };
        0 < b
            && node.is_bridge()
            && node.secondary() == b
            && b <= node.subordinate()
            && self.comes_down(b, node.parent)
    }

    fn is_hit(&self, at: Name, n: &Node) -> bool
        ensures { result ≡ hits self.now.nodes.items at n.now }
    {
        at.device < 32
            && at.function < 8
            && n.device == at.device
            && n.function == at.function
            && self.is_on(at.bus, n.parent)
    }

    // The lowest node that the name selects.
    // (By index, so that a search from the next node on is refused for what it answers: of `position` its right twin is refused too.)
    pub fn find(&self, at: Name) -> Option<usize>
        ensures picks { result ≡ selected self.now.nodes.items at }
        ensures within { IfSome result (λ i. i < vec_len self.now.nodes) }
    {
        for i in 0..self.nodes.len() {
            if self.is_hit(at, &self.nodes[i]) {
                return Some(i);
            }
        }
        None
    }
}
