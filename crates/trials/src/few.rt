// An access that reaches a board up to a last bus of one's own choice. What does not reach the board is not counted there, so it is not known when it will be lost.
ghost use Rattle.access.specs.Access.{unknown};
ghost use Rattle.access.specs.Boards.{board_state};

use access::Access;
use access::board::Board;
use pci::{Loss, Register};

#[derive(Drop)]
pub struct FewBuses {
    pub board: Board,
    pub last: u8,
}

// (`map_or` on the board's loss hides the two cases from the proof.)
impl Access for FewBuses {
    ghost state = { λ f. record { machine = (board_state f.board).machine; last = f.last; loss = (board_state f.board).loss; due = unknown } };

    fn last_bus(&self) -> u8 {
        self.last
    }

    fn loss(&self) -> Option<Loss> {
        self.board.loss()
    }

    fn read(&mut self, register: Register) -> Result<u32, Loss> {
        if register.at.bus <= self.last {
            return self.board.read(register);
        }
        match self.board.loss() {
            Some(loss) => Err(loss),
            None => Ok(0xFFFF_FFFF),
        }
    }

    fn write(&mut self, register: Register, value: u32) -> Result<(), Loss> {
        if register.at.bus <= self.last {
            return self.board.write(register, value);
        }
        match self.board.loss() {
            Some(loss) => Err(loss),
            None => Ok(()),
        }
    }
}
