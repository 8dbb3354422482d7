// The laws on how a node stands to the others of its machine, and the test of all laws at a node.
ghost use Rattle.std.specs.Prelude.{◌≡◌, ◌<◌, length, Err, IsOk, MatchBool};
ghost use Rattle.std.specs.List.{find};
ghost use Rattle.std.specs.Option.{option_copied};
ghost use Rattle.machine.specs.Machine.{node as node_of};
ghost use Rattle.laws.specs.Lawful.{beside, zero_of, repeated, preceded, shared, lawful_parent, lawful_place, lawful_device, AtNode};

use super::registers::{keeps_bars, keeps_bridge, keeps_command, keeps_identity};
use machine::Node;
use pci::Law;
use pci::field::has_several;

// A node among those of its machine.
#[derive(Clone, Copy)]
pub struct Member<'a> {
    pub nodes: &'a [Node],
    pub at: usize,
    ghost within: { at < length nodes.now },
}

// Whether two nodes are of one device.
fn are_beside(a: &Node, b: &Node) -> bool
    ensures { result ≡ beside a.now b.now }
{
    a.parent == b.parent && a.device == b.device
}

impl<'a> Member<'a> {
    fn node(&self) -> &'a Node
        ensures { result.now ≡ node_of self.now.nodes.now self.now.at }
    {
        &self.nodes[self.at]
    }

    // Law 1. (`is_none_or` hides the two cases from the proof, as `is_some_and` does in law 3.)
    fn keeps_parent(&self) -> bool
        ensures { result ≡ lawful_parent self.now.nodes.now self.now.at }
    {
        match self.node().parent {
            None => true,
            Some(p) => (p as usize) < self.at && self.nodes[p as usize].is_bridge(),
        }
    }

    // Whether a later node shares parent, device and function.
    fn is_repeated(&self) -> bool
        ensures { result ≡ repeated self.now.nodes.now self.now.at }
    {
        let n = self.node();
        self.nodes
            .iter()
            .skip(self.at + 1)
            .any(|m| are_beside(n, m) && n.function == m.function)
    }

    // Law 2.
    fn keeps_place(&self) -> bool
        ensures { result ≡ lawful_place self.now.nodes.now self.now.at }
    {
        !self.is_repeated()
    }

    // Whether an earlier node is of its device.
    fn is_preceded(&self) -> bool
        ensures { result ≡ preceded self.now.nodes.now self.now.at }
    {
        let n = self.node();
        self.nodes.iter().take(self.at).any(|m| are_beside(n, m))
    }

    // Whether its device has functions other than 0.
    fn is_shared(&self) -> bool
        ensures { result ≡ shared self.now.nodes.now (node_of self.now.nodes.now self.now.at) }
    {
        let n = self.node();
        self.nodes
            .iter()
            .any(|m| are_beside(n, m) && m.function != 0)
    }

    // The function 0 of its device.
    fn zero(&self) -> Option<&'a Node>
        ensures { option_copied result ≡ find (zero_of (node_of self.now.nodes.now self.now.at)) self.now.nodes.now }
    {
        let n = self.node();
        self.nodes
            .iter()
            .find(|m| are_beside(n, m) && m.function == 0)
    }

    // Law 3.
    fn keeps_device(&self) -> bool
        ensures { result ≡ lawful_device self.now.nodes.now self.now.at }
    {
        self.is_preceded()
            || match self.zero() {
                None => false,
                Some(zero) => !self.is_shared() || has_several(zero.dwords[3].value),
            }
    }

    // The laws in their order: refuses the first that is broken.
    pub fn test(&self) -> Result<(), Law>
        ensures { AtNode self.now.nodes.now self.now.at result }
    {
        let n = self.node();
        demand(self.keeps_parent(), Law::Parent)?;
        demand(self.keeps_place(), Law::Place)?;
        demand(self.keeps_device(), Law::Device)?;
        demand(keeps_identity(n), Law::Identity)?;
        demand(keeps_command(n), Law::Command)?;
        demand(keeps_bridge(n), Law::Bridge)?;
        demand(keeps_bars(n), Law::Bar)
    }
}

// Refuses with the law where it is not kept.
fn demand(is_kept: bool, law: Law) -> Result<(), Law>
    ensures { MatchBool is_kept (IsOk result) (result ≡ Err law) }
{
    if is_kept { Ok(()) } else { Err(law) }
}
