// Plays the cases that 01 names in "The player", and request 6's BOTH. Before each, every byte holds 165.
#![tactic(auto)]

use play_cases::BEFORE;
use player::{ADD, BOTH, CUT, LOAD};
use std::io;

// Plays one case and prints its line.
fn show(
    rt: &impl Print,
    label: &[u8],
    code: &[u16],
    patch: &[u16],
    lamps: &mut [u8],
) -> io::Result<()> {
    let answer = player::play(code, patch, lamps);
    play_cases::report(rt, label, answer, lamps)
}

// A case on 66 bytes.
fn case(rt: &impl Print, label: &[u8], code: &[u16], patch: &[u16]) -> io::Result<()> {
    show(rt, label, code, patch, &mut [BEFORE; 66])
}

// One instruction, with lamp 1 in group 7.
fn instruction(rt: &impl Print, label: &[u8], instruction: [u16; 4]) -> io::Result<()> {
    case(rt, label, &instruction, &[7, 1])
}

// One pair, after lamp 1 in group 7, which is loaded.
fn pair(rt: &impl Print, label: &[u8], group: u16, lamp: u16) -> io::Result<()> {
    case(rt, label, &[LOAD, 0, 7, 0], &[7, 1, group, lamp])
}

// Faults 21 and 22.
fn lengths(rt: &impl Print) -> io::Result<()> {
    show(
        rt,
        b"63 bytes",
        &[LOAD, 0, 7, 0],
        &[7, 1],
        &mut [BEFORE; 63],
    )?;
    show(
        rt,
        b"64 bytes",
        &[LOAD, 0, 7, 0],
        &[7, 1],
        &mut [BEFORE; 64],
    )?;
    case(rt, b"0 instructions", &[], &[7, 1])?;
    case(
        rt,
        b"a length that four does not divide",
        &[LOAD, 0, 7, 0, LOAD],
        &[7, 1],
    )
}

// The most instructions. The numbers 2 2 2 2 are ADD 2 2 2.
fn most_instructions(rt: &impl Print) -> io::Result<()> {
    case(rt, b"8191 instructions", &[2; 32764], &[7, 1])?;
    case(rt, b"8192 instructions", &[2; 32768], &[7, 1])
}

// Fault 23.
fn registers(rt: &impl Print) -> io::Result<()> {
    instruction(rt, b"kind 0", [0, 0, 1, 2])?;
    instruction(rt, b"kind 5", [5, 0, 1, 2])?;
    instruction(rt, b"target 13", [LOAD, 13, 7, 0])?;
    instruction(rt, b"first operand 13", [ADD, 0, 13, 0])?;
    instruction(rt, b"second operand 13", [CUT, 0, 0, 13])?;
    instruction(rt, b"second operand 13 of BOTH", [BOTH, 0, 0, 13])?;
    instruction(rt, b"registers 12", [CUT, 12, 12, 12])
}

fn loads(rt: &impl Print) -> io::Result<()> {
    instruction(rt, b"group 0", [LOAD, 0, 0, 0])?;
    instruction(rt, b"group 9999", [LOAD, 0, 9999, 0])?;
    instruction(rt, b"group 10000", [LOAD, 0, 10000, 0])?;
    instruction(rt, b"group 60000", [LOAD, 0, 60000, 0])?;
    instruction(rt, b"group 60001", [LOAD, 0, 60001, 0])?;
    instruction(rt, b"LOAD with a last number not 0", [LOAD, 0, 7, 1])?;
    case(
        rt,
        b"a fault in the second instruction",
        &[LOAD, 0, 7, 0, 5, 0, 0, 0],
        &[7, 1],
    )
}

// Fault 24.
fn patches(rt: &impl Print) -> io::Result<()> {
    case(rt, b"a patch of odd length", &[LOAD, 0, 7, 0], &[7, 1, 7])?;
    case(rt, b"4096 pairs", &[LOAD, 0, 1, 0], &[1; 8192])?;
    case(rt, b"4097 pairs", &[LOAD, 0, 1, 0], &[1; 8194])
}

// Fault 25.
fn pairs(rt: &impl Print) -> io::Result<()> {
    pair(rt, b"a pair of group 0", 0, 1)?;
    pair(rt, b"a pair of group 9999", 9999, 1)?;
    pair(rt, b"a pair of group 10000", 10000, 1)?;
    pair(rt, b"a pair of group 60000", 60000, 1)?;
    pair(rt, b"a pair of group 60001", 60001, 1)?;
    pair(rt, b"a pair of lamp 0", 7, 0)?;
    pair(rt, b"a pair of lamp 512", 7, 512)?;
    pair(rt, b"a pair of lamp 513", 7, 513)
}

// Two faults at once: the first listed is the one given.
fn faults(rt: &impl Print) -> io::Result<()> {
    show(rt, b"21 and 22", &[], &[7, 1], &mut [BEFORE; 63])?;
    case(rt, b"22 and 23", &[5, 0, 0, 0, 1], &[7, 1])?;
    case(rt, b"22 and 24", &[], &[7])
}

fn later_faults(rt: &impl Print) -> io::Result<()> {
    case(rt, b"23 and 24", &[5, 0, 0, 0], &[7])?;
    case(rt, b"23 and 25", &[5, 0, 0, 0], &[7, 513])?;
    case(rt, b"24 and 25", &[LOAD, 0, 7, 0], &[7, 513, 7])
}

// Lamps that are lit.
fn lit(rt: &impl Print) -> io::Result<()> {
    case(
        rt,
        b"lamps 1 8 9 64 65 512",
        &[LOAD, 0, 7, 0],
        &[7, 1, 7, 8, 7, 9, 7, 64, 7, 65, 7, 512],
    )?;
    case(rt, b"a pair given twice", &[LOAD, 0, 7, 0], &[7, 3, 7, 3])?;
    case(rt, b"a group without a pair", &[LOAD, 0, 8, 0], &[7, 3])?;
    case(rt, b"an empty patch", &[LOAD, 0, 7, 0], &[])
}

// Lamps of ADD, CUT and BOTH.
fn operations(rt: &impl Print) -> io::Result<()> {
    case(
        rt,
        b"ADD of 1 2 and 2 3",
        &[LOAD, 0, 7, 0, LOAD, 1, 8, 0, ADD, 0, 0, 1],
        &[7, 1, 7, 2, 8, 2, 8, 3],
    )?;
    case(
        rt,
        b"CUT of 1 2 and 2 3",
        &[LOAD, 0, 7, 0, LOAD, 1, 8, 0, CUT, 0, 0, 1],
        &[7, 1, 7, 2, 8, 2, 8, 3],
    )?;
    case(
        rt,
        b"CUT of 2 3 and 1 2",
        &[LOAD, 0, 7, 0, LOAD, 1, 8, 0, CUT, 0, 1, 0],
        &[7, 1, 7, 2, 8, 2, 8, 3],
    )?;
    case(
        rt,
        b"BOTH of 1 2 and 2 3",
        &[LOAD, 0, 7, 0, LOAD, 1, 8, 0, BOTH, 0, 0, 1],
        &[7, 1, 7, 2, 8, 2, 8, 3],
    )
}

// Lamps by the register.
fn answers(rt: &impl Print) -> io::Result<()> {
    case(
        rt,
        b"an answer only in register 1",
        &[LOAD, 1, 7, 0],
        &[7, 1],
    )?;
    case(
        rt,
        b"through register 12",
        &[LOAD, 12, 7, 0, ADD, 0, 12, 3],
        &[7, 100],
    )
}

fn main(rt: HostRuntime) -> io::Result<()> {
    lengths(&rt)?;
    most_instructions(&rt)?;
    registers(&rt)?;
    loads(&rt)?;
    patches(&rt)?;
    pairs(&rt)?;
    faults(&rt)?;
    later_faults(&rt)?;
    lit(&rt)?;
    operations(&rt)?;
    answers(&rt)
}
