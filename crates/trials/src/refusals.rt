// Each refusal, and the reader on torn input at each kind of line.
use super::run::{check, prints, refused, spent};
use std::alloc::Global;
use std::fmt::Write;
use std::test::Fail;

// Files that break the form.
const TORN: [(&[u8], &[u8]); 20] = [
    // torn apertures lower case
    (
        b"ap,e0000000,E0FFFFFF,00001000,00001FFF
fn,-,1,0
rg,00,0101F0A0,00000000
rg,0C,00010000,00000000
fn,0,0,0
rg,00,0202F0A0,00000000
rg,10,00000000,FFFFF000
",
        b"no,1,file,-,1,0
",
    ),
    // torn apertures short
    (
        b"ap,E0000000,E0FFFFFF,00001000
fn,-,1,0
rg,00,0101F0A0,00000000
rg,0C,00010000,00000000
fn,0,0,0
rg,00,0202F0A0,00000000
rg,10,00000000,FFFFF000
",
        b"no,1,file,-,1,0
",
    ),
    // torn apertures twice
    (
        b"ap,E0000000,E0FFFFFF,00001000,00001FFF
ap,E0000000,E0FFFFFF,00001000,00001FFF
fn,-,1,0
rg,00,0101F0A0,00000000
rg,0C,00010000,00000000
fn,0,0,0
rg,00,0202F0A0,00000000
rg,10,00000000,FFFFF000
",
        b"no,1,file,-,2,0
",
    ),
    // torn blank line
    (
        b"ap,E0000000,E0FFFFFF,00001000,00001FFF
fn,-,1,0
rg,00,0101F0A0,00000000
rg,0C,00010000,00000000
fn,0,0,0
rg,00,0202F0A0,00000000
rg,10,00000000,FFFFF000

",
        b"no,1,file,-,8,0
",
    ),
    // torn empty
    (
        b"",
        b"no,1,file,-,1,0
",
    ),
    // torn function device
    (
        b"ap,E0000000,E0FFFFFF,00001000,00001FFF
fn,-,32,0
",
        b"no,1,file,-,2,0
",
    ),
    // torn function leading zero
    (
        b"ap,E0000000,E0FFFFFF,00001000,00001FFF
fn,-,01,0
",
        b"no,1,file,-,2,0
",
    ),
    // torn function parent
    (
        b"ap,E0000000,E0FFFFFF,00001000,00001FFF
fn,80,0,0
",
        b"no,1,file,-,2,0
",
    ),
    // torn function word
    (
        b"ap,E0000000,E0FFFFFF,00001000,00001FFF
Fn,-,0,0
",
        b"no,1,file,-,2,0
",
    ),
    // torn last line
    (
        b"ap,E0000000,E0FFFFFF,00001000,00001FFF
fn,-,1,0
rg,00,0101F0A0,00000000
rg,0C,00010000,00000000
fn,0,0,0
rg,00,0202F0A0,00000000
rg,10,00000000,FFFFF000",
        b"no,1,file,-,7,0
",
    ),
    // torn lose large
    (
        b"ap,E0000000,E0FFFFFF,00001000,00001FFF
lose,1000001
fn,-,1,0
rg,00,0101F0A0,00000000
rg,0C,00010000,00000000
fn,0,0,0
rg,00,0202F0A0,00000000
rg,10,00000000,FFFFF000
",
        b"no,1,file,-,2,0
",
    ),
    // torn lose late
    (
        b"ap,E0000000,E0FFFFFF,00001000,00001FFF
fn,-,1,0
rg,00,0101F0A0,00000000
rg,0C,00010000,00000000
fn,0,0,0
rg,00,0202F0A0,00000000
rg,10,00000000,FFFFF000
lose,5
",
        b"no,1,file,-,8,0
",
    ),
    // torn lose twice
    (
        b"ap,E0000000,E0FFFFFF,00001000,00001FFF
lose,5
lose,6
fn,-,1,0
rg,00,0101F0A0,00000000
rg,0C,00010000,00000000
fn,0,0,0
rg,00,0202F0A0,00000000
rg,10,00000000,FFFFF000
",
        b"no,1,file,-,3,0
",
    ),
    // torn lose zero
    (
        b"ap,E0000000,E0FFFFFF,00001000,00001FFF
lose,0
fn,-,1,0
rg,00,0101F0A0,00000000
rg,0C,00010000,00000000
fn,0,0,0
rg,00,0202F0A0,00000000
rg,10,00000000,FFFFF000
",
        b"no,1,file,-,2,0
",
    ),
    // torn no apertures
    (
        b"fn,-,1,0
rg,00,0101F0A0,00000000
rg,0C,00010000,00000000
fn,0,0,0
rg,00,0202F0A0,00000000
rg,10,00000000,FFFFF000
",
        b"no,1,file,-,1,0
",
    ),
    // torn register alone
    (
        b"ap,E0000000,E0FFFFFF,00001000,00001FFF
rg,00,0101F0A0,00000000
",
        b"no,1,file,-,2,0
",
    ),
    // torn register falling
    (
        b"ap,E0000000,E0FFFFFF,00001000,00001FFF
fn,-,1,0
rg,00,0101F0A0,00000000
rg,0C,00010000,00000000
rg,08,00000000,00000000
",
        b"no,1,file,-,5,0
",
    ),
    // torn register offset
    (
        b"ap,E0000000,E0FFFFFF,00001000,00001FFF
fn,-,1,0
rg,02,0101F0A0,00000000
",
        b"no,1,file,-,3,0
",
    ),
    // torn register twice
    (
        b"ap,E0000000,E0FFFFFF,00001000,00001FFF
fn,-,1,0
rg,00,0101F0A0,00000000
rg,00,0101F0A0,00000000
",
        b"no,1,file,-,4,0
",
    ),
    // torn register width
    (
        b"ap,E0000000,E0FFFFFF,00001000,00001FFF
fn,-,1,0
rg,00,101F0A0,00000000
",
        b"no,1,file,-,3,0
",
    ),
];

// Machines that break a law.
const UNLAWFUL: [(&[u8], &[u8]); 13] = [
    // unlawful 1 endpoint parent
    (
        b"ap,E0000000,E0FFFFFF,00001000,00001FFF
fn,-,0,0
rg,00,0202F0A0,00000000
fn,0,0,0
rg,00,0202F0A0,00000000
",
        b"no,2,file,-,1,1
",
    ),
    // unlawful 1 later parent
    (
        b"ap,E0000000,E0FFFFFF,00001000,00001FFF
fn,0,0,0
rg,00,0202F0A0,00000000
rg,10,00000000,FFFFF000
fn,-,1,0
rg,00,0101F0A0,00000000
rg,0C,00010000,00000000
",
        b"no,2,file,-,0,1
",
    ),
    // unlawful 2
    (
        b"ap,E0000000,E0FFFFFF,00001000,00001FFF
fn,-,1,0
rg,00,0101F0A0,00000000
rg,0C,00010000,00000000
fn,0,0,0
rg,00,0202F0A0,00000000
rg,10,00000000,FFFFF000
fn,0,0,0
rg,00,0202F0A0,00000000
rg,10,00000000,FFFFF000
",
        b"no,2,file,-,1,2
",
    ),
    // unlawful 3 bit 23
    (
        b"ap,E0000000,E0FFFFFF,00001000,00001FFF
fn,-,0,0
rg,00,0202F0A0,00000000
fn,-,0,1
rg,00,0202F0A0,00000000
",
        b"no,2,file,-,0,3
",
    ),
    // unlawful 3 no function 0
    (
        b"ap,E0000000,E0FFFFFF,00001000,00001FFF
fn,-,0,1
rg,00,0202F0A0,00000000
",
        b"no,2,file,-,0,3
",
    ),
    // unlawful 4 vendor
    (
        b"ap,E0000000,E0FFFFFF,00001000,00001FFF
fn,-,0,0
rg,00,0202FFFF,00000000
",
        b"no,2,file,-,0,4
",
    ),
    // unlawful 4 writable kind
    (
        b"ap,E0000000,E0FFFFFF,00001000,00001FFF
fn,-,0,0
rg,00,0202F0A0,00000000
rg,0C,00000000,00010000
",
        b"no,2,file,-,0,4
",
    ),
    // unlawful 5 command
    (
        b"ap,E0000000,E0FFFFFF,00001000,00001FFF
fn,-,0,0
rg,00,0202F0A0,00000000
rg,04,00000001,00000007
",
        b"no,2,file,-,0,5
",
    ),
    // unlawful 5 memory bit
    (
        b"ap,E0000000,E0FFFFFF,00001000,00001FFF
fn,-,0,0
rg,00,0202F0A0,00000000
rg,04,00000000,00000005
rg,10,00000000,FFFFF000
",
        b"no,2,file,-,0,5
",
    ),
    // unlawful 6 numbers mask
    (
        b"ap,E0000000,E0FFFFFF,00001000,00001FFF
fn,-,1,0
rg,00,0101F0A0,00000000
rg,0C,00010000,00000000
rg,18,00000000,00FFFF00
",
        b"no,2,file,-,0,6
",
    ),
    // unlawful 6 window
    (
        b"ap,E0000000,E0FFFFFF,00001000,00001FFF
fn,-,1,0
rg,00,0101F0A0,00000000
rg,0C,00010000,00000000
rg,20,00100000,FFF0FFF0
",
        b"no,2,file,-,0,6
",
    ),
    // unlawful 7 fixed bits
    (
        b"ap,E0000000,E0FFFFFF,00001000,00001FFF
fn,-,0,0
rg,00,0202F0A0,00000000
rg,10,00000000,FFFFF008
",
        b"no,2,file,-,0,7
",
    ),
    // unlawful 7 unwritable one
    (
        b"ap,E0000000,E0FFFFFF,00001000,00001FFF
fn,-,0,0
rg,00,0202F0A0,00000000
rg,10,00000800,FFFFF000
",
        b"no,2,file,-,0,7
",
    ),
];

// Racks that a scan refuses.
const REFUSED: [(&[u8], &[u8]); 4] = [
    // lost below
    (
        b"ap,E0000000,E0FFFFFF,00001000,00001FFF
lose,40
fn,-,1,0
rg,00,0101F0A0,00000000
rg,0C,00010000,00000000
fn,0,0,0
rg,00,0202F0A0,00000000
rg,10,00000000,FFFFF000
",
        b"no,3,access,01:01.0,0,0
",
    ),
    // lost first
    (
        b"ap,E0000000,E0FFFFFF,00001000,00001FFF
lose,1
fn,-,1,0
rg,00,0101F0A0,00000000
rg,0C,00010000,00000000
fn,0,0,0
rg,00,0202F0A0,00000000
rg,10,00000000,FFFFF000
",
        b"no,3,access,00:00.0,0,0
",
    ),
    // lost write
    (
        b"ap,E0000000,E0FFFFFF,00001000,00001FFF
lose,5
fn,-,1,0
rg,00,0101F0A0,00000000
rg,0C,00010000,00000000
fn,0,0,0
rg,00,0202F0A0,00000000
rg,10,00000000,FFFFF000
",
        b"no,3,access,00:01.0,24,0
",
    ),
    // strange
    (
        b"ap,E0000000,EFFFFFFF,00001000,0000FFFF
fn,-,0,0
rg,00,0101F0A0,00000000
rg,0C,00010000,00000000
fn,0,4,0
rg,00,0202F0A0,00000000
rg,0C,00020000,00000000
",
        b"no,4,job,01:04.0,2,0
",
    ),
];

// Files that are refused, each with its `no` line.
fn all_refused(heap: Global, files: &[(&[u8], &[u8])]) -> Result<(), Fail> {
    for (text, no) in files {
        refused(heap, text, no)?;
    }
    Ok(())
}

#[test]
fn torn_files(rt: HostRuntime) -> Result<(), Fail> {
    all_refused(rt.alloc(), &TORN)
}

#[test]
fn unlawful_machines(rt: HostRuntime) -> Result<(), Fail> {
    all_refused(rt.alloc(), &UNLAWFUL)
}

#[test]
fn refused_scans(rt: HostRuntime) -> Result<(), Fail> {
    all_refused(rt.alloc(), &REFUSED)
}

// A bridge beside another, with a card behind each.
const TWO_BRIDGES: &[u8] = b"ap,E0000000,E0FFFFFF,00001000,00001FFF
fn,-,1,0
rg,00,0101F0A0,00000000
rg,0C,00010000,00000000
fn,-,2,0
rg,00,0101F0A0,00000000
rg,0C,00010000,00000000
fn,0,0,0
rg,00,0202F0A0,00000000
fn,1,0,0
rg,00,0202F0A0,00000000
";

#[test]
fn no_bus_number_left(rt: HostRuntime) -> Result<(), Fail> {
    spent(rt.alloc(), TWO_BRIDGES, 0, b"no,6,job,00:01.0,0,0\n")?;
    spent(rt.alloc(), TWO_BRIDGES, 1, b"no,6,job,00:02.0,1,0\n")
}

#[test]
fn too_narrow_a_map(rt: HostRuntime) -> Result<(), Fail> {
    let first = b"fn,00:01.0,F0A0:0101\n";
    prints(rt.alloc(), 40, TWO_BRIDGES, first, b"no,14,list,-,21,0\n")?;
    prints(rt.alloc(), 20, TWO_BRIDGES, b"", b"no,14,list,-,0,0\n")
}

// Nodes with all their dwords named make lines enough to pass 64 KiB; the line that holds byte 65,537 is torn.
#[test]
fn too_long_a_file(rt: HostRuntime) -> Result<(), Fail> {
    let mut text = String::new(rt.alloc());
    writeln!(text, "ap,E0000000,E0FFFFFF,00001000,00001FFF")?;
    for _ in 0..43 {
        writeln!(text, "fn,-,1,0")?;
        for k in 0u8..64 {
            let offset = k * 4;
            writeln!(text, "rg,{offset:02X},00000000,00000000")?;
        }
    }
    check(text.len() > 65_536)?;
    refused(rt.alloc(), text.as_bytes(), b"no,1,file,-,2757,0\n")
}
