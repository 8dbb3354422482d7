// The direct board: a machine in memory, lost from a given access on.
ghost use Rattle.std.specs.Prelude.{◌≡◌, ◌-◌};
ghost use Rattle.std.specs.Option.{option_map};
ghost use Rattle.access.specs.Boards.{board_state, grants_next, New, LostFromTheNth, NeverLost};
ghost use Rattle.access.specs.Counts.{Counted};

use super::Access;
use machine::Machine;
use pci::{Loss, Register};

#[derive(Drop)]
pub struct Board {
    machine: Machine,
    // How many accesses will still be granted; none: all of them.
    left: Option<u32>,
    loss: Option<Loss>,
}

// One access fewer is left.
fn less(left: Option<u32>) -> Option<u32>
    ensures { result ≡ option_map (λ n. n - 1) left }
{
    left.map(|n| n.saturating_sub(1))
}

// Whether the next access is granted.
fn is_granting(left: Option<u32>) -> bool
    ensures { result ≡ grants_next left }
{
    left.is_none_or(|n| n > 0)
}

impl Board {
    // The board of a machine, which loses its n-th access and all later ones where `lose` is n.
    pub fn new(machine: Machine, lose: Option<u32>) -> Board
        ensures { New machine lose result }
    {
        Board {
            machine,
            left: less(lose),
            loss: None,
        }
    }

    // Counts a read or write, in range or not; the loss where it is lost.
    fn count(&mut self, register: Register) -> Result<(), Loss>
        ensures machine { self.new.machine ≡ self.old.machine }
        ensures counted { Counted self.old register.at register.offset result self.new }
    {
        if let Some(loss) = self.loss {
            return Err(loss);
        }
        if !is_granting(self.left) {
            let loss = Loss { register };
            self.loss = Some(loss);
            return Err(loss);
        }
        self.left = less(self.left);
        Ok(())
    }
}

impl Access for Board {
    ghost state = { board_state };

    fn last_bus(&self) -> u8 {
        255
    }

    fn loss(&self) -> Option<Loss> {
        self.loss
    }

    fn read(&mut self, register: Register) -> Result<u32, Loss> {
        self.count(register)?;
        Ok(self.machine.read(register))
    }

    fn write(&mut self, register: Register, value: u32) -> Result<(), Loss> {
        self.count(register)?;
        self.machine.write(register, value);
        Ok(())
    }
}

// The theorems that a board is lost exactly from the access that it was told to lose.
pub fn lost_from_the_nth()
    ensures told { LostFromTheNth }
    ensures untold { NeverLost }
{}
