// The three bus numbers of a bridge.
ghost use Rattle.std.specs.Prelude.{◌≡◌};
ghost use Rattle.pci.specs.Fields.{renumbered, NumbersReadBack};
ghost use Rattle.pci.specs.Numbers.{in_dword};

// The bus that the bridge is on, the bus that it makes, and the highest bus below it.
#[derive(Clone, Copy, PartialEq, Eq)]
pub struct Numbers {
    pub primary: u8,
    pub secondary: u8,
    pub subordinate: u8,
}

impl From<u32> for Numbers {
    ghost from_gives = { λ dword numbers. numbers ≡ in_dword dword };

    // The numbers in a bridge's 18h.
    fn from(dword: u32) -> Numbers {
        let [primary, secondary, subordinate, _] = dword.to_le_bytes();
        Numbers {
            primary,
            secondary,
            subordinate,
        }
    }
}

impl Numbers {
    // 18h with these numbers, its highest byte kept.
    pub fn put_into(self, old: u32) -> u32
        ensures is { result ≡ renumbered old self.primary self.secondary self.subordinate }
        ensures read_back { NumbersReadBack }
    {
        let [.., rest] = old.to_le_bytes();
        u32::from_le_bytes([self.primary, self.secondary, self.subordinate, rest])
    }
}
