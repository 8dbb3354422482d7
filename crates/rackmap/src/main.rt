//! rackmap: reads a machine file on standard input and prints the numbers of its rack.
#![tactic(auto)]

mod input;
mod sentence;

use input::fill;
use pci::fault::Fault;
use sentence::Sentence;
use sheet::desk::Desk;
use sheet::print::{NO_LINE, print_rack};
use std::io::Write;
use std::process::ExitCode;

// One byte more than a machine file may have.
const TEXT: usize = 65_537;

// The room for the map.
const MAP: usize = 65_536;

// One run: prints the map or the `no` line, and answers the refusal, if any.
// All memory is asked for here, before the first byte is read.
fn run(rt: &HostRuntime) -> anyhow::Result<Option<Fault>> {
    let desk = Desk::new(rt.alloc())?;
    let mut text = vec![in rt.alloc(); 0u8; TEXT]?;
    let mut map = vec![in rt.alloc(); 0u8; MAP]?;
    let mut no = [0u8; NO_LINE];
    let len = fill(&mut rt.stdin(), text.as_mut_slice())?;
    let ended = print_rack(desk, &text[0..len], map.as_mut_slice(), &mut no);
    let mut out = rt.stdout();
    let (map_len, no_len) = (ended.map, ended.no);
    out.write_all(&map[0..map_len])?;
    out.write_all(&no[0..no_len])?;
    Ok(ended.fault)
}

// A refusal ends with status 1. Want of memory and failures to read or write are told on standard error too.
fn main(rt: HostRuntime) -> anyhow::Result<ExitCode> {
    match run(&rt)? {
        None => Ok(ExitCode::SUCCESS),
        Some(fault) => {
            eprintln!(rt; "rackmap: {}", Sentence(fault))?;
            Ok(ExitCode::FAILURE)
        }
    }
}
