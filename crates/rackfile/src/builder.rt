// The lines of a machine file, taken one by one.
ghost use Rattle.std.specs.Prelude.{◌≤◌, vec_capacity};

use super::line::{Apertures, Line, parse};
use super::room::Room;
use machine::{Machine, NODES, Node};
use pci::fault::Fault;

// What the lines so far have said.
#[derive(Drop)]
pub(crate) struct Builder {
    pub(crate) apertures: Option<Apertures>,
    pub(crate) lose: Option<u32>,
    pub(crate) machine: Machine,
    // The least offset that the next dword of the last node may have.
    pub(crate) free: u16,
    // The number of the line that comes next.
    pub(crate) line: u32,
    ghost wide: { 80 ≤ vec_capacity machine.nodes },
}

impl Builder {
    ghost use Rattle.std.specs.Prelude.{◌≡◌, ◌+◌, ◌<◌, ◌≤◌, ◌^◌, MatchOption, IfOk, IfErr, Some, None};
    ghost use Rattle.pci.specs.declared.fault.Fault.TheVariants.{Torn};
    ghost use Rattle.rackfile.specs.Reading.{start, next, Says};
    ghost use Rattle.rackfile.specs.Built.{said};
    ghost use Rattle.rackfile.specs.declared.line.Line.{Line};

    // Nothing is said yet.
    pub fn new(room: Room) -> Builder
        ensures says { said result ≡ start }
        ensures first { result.line ≡ 1 }
    {
        let Room { machine } = room;
        Builder {
            apertures: None,
            lose: None,
            machine,
            free: 0,
            line: 1,
        }
    }

    // The refusal of the line that comes next.
    pub fn torn(&self) -> Fault
        ensures { result ≡ Torn self.now.line }
    {
        Fault::Torn { line: self.line }
    }

    // Takes one line more, where it may stand there.
    fn take(&mut self, line: Line) -> Option<()>
        ensures says { MatchOption result (next (said self.old) line ≡ None) (λ _. next (said self.old) line ≡ Some (said self.new)) }
        ensures counts { self.new.line ≡ self.old.line }
    {
        let count = self.machine.nodes.len();
        match line {
            Line::Apertures(apertures) => {
                if self.apertures.is_some() {
                    return None;
                }
                self.apertures = Some(apertures);
            }
            Line::Lose(n) => {
                if self.apertures.is_none() || self.lose.is_some() || count != 0 {
                    return None;
                }
                self.lose = Some(n);
            }
            Line::Function {
                parent,
                device,
                function,
            } => {
                if self.apertures.is_none() || count >= NODES {
                    return None;
                }
                self.machine
                    .nodes
                    .push_reserved(Node::new(parent, device, function));
                self.free = 0;
            }
            Line::Register(named) => {
                let node = self.machine.nodes.last_mut()?;
                if (named.offset as u16) < self.free {
                    return None;
                }
                node.name(named.offset, named.dword);
                self.free = named.offset as u16 + 4;
            }
        }
        Some(())
    }

    // Takes the line that these bytes write, or tells that they write none that may stand there.
    #[tactic(auto, using(crate::proofs::Runs::says_one))]
    pub fn add(&mut self, bytes: &[u8]) -> Result<(), Fault>
        requires { self.old.line + 1 < 2 ^ 32 }
        ensures taken { IfOk result (λ _. (l : Line) × Says bytes.now l × (next (said self.old) l ≡ Some (said self.new)) × (self.new.line ≡ self.old.line + 1)) }
        ensures refused { IfErr result (λ e. (e ≡ Torn self.old.line) × ((l : Line) → Says bytes.now l → next (said self.old) l ≡ None)) }
    {
        let torn = self.torn();
        let line = parse(bytes).ok_or(torn)?;
        self.take(line).ok_or(torn)?;
        self.line += 1;
        Ok(())
    }
}
