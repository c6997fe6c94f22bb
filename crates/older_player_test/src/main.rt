// Plays the cases of request 8's older player: which register an operation changes, where SHOW stands, the unused numbers, the ranges,
// and the order of the faults. Before each case every byte holds 165.
#![tactic(auto)]

use older_player::SHOW;
use play_cases::BEFORE;
use player::{ADD, BOTH, CUT, LOAD};
use std::io;

// Loads group 7 and shows it.
const SHORT: [u16; 8] = [LOAD, 0, 7, 0, SHOW, 0, 0, 0];

// Plays one case and prints its line.
fn show(
    rt: &impl Print,
    label: &[u8],
    code: &[u16],
    patch: &[u16],
    lamps: &mut [u8],
) -> io::Result<()> {
    let answer = older_player::play(code, patch, lamps);
    play_cases::report(rt, label, answer, lamps)
}

// A case on 66 bytes.
fn case(rt: &impl Print, label: &[u8], code: &[u16], patch: &[u16]) -> io::Result<()> {
    show(rt, label, code, patch, &mut [BEFORE; 66])
}

// One instruction, when register 0 holds lamps 1 2, register 12 lamps 2 3 and the others none, and then SHOW of a register.
fn instruction(rt: &impl Print, label: &[u8], instruction: [u16; 4], shown: u16) -> io::Result<()> {
    let [kind, a, b, c] = instruction;
    case(
        rt,
        label,
        &[
            LOAD, 0, 7, 0, LOAD, 12, 8, 0, kind, a, b, c, SHOW, shown, 0, 0,
        ],
        &[7, 1, 7, 2, 8, 2, 8, 3],
    )
}

// An operation in a line that begins with its name.
fn named(
    rt: &impl Print,
    name: &[u8],
    label: &[u8],
    kind: u16,
    a: u16,
    b: u16,
    shown: u16,
) -> io::Result<()> {
    rt.write_all(name)?;
    instruction(rt, label, [kind, a, b, 0], shown)
}

// An operation changes the first register that it names and no other, and takes registers to 12.
fn operation(rt: &impl Print, name: &[u8], kind: u16) -> io::Result<()> {
    named(rt, name, b" 0 12, shown 0", kind, 0, 12, 0)?;
    named(rt, name, b" 0 12, shown 12", kind, 0, 12, 12)?;
    named(rt, name, b" 12 0, shown 12", kind, 12, 0, 12)?;
    named(rt, name, b" 12 0, shown 0", kind, 12, 0, 0)?;
    named(rt, name, b" 0 0, shown 0", kind, 0, 0, 0)?;
    named(rt, name, b" 5 0, shown 5", kind, 5, 0, 5)?;
    named(rt, name, b" 13 0", kind, 13, 0, 0)?;
    named(rt, name, b" 0 13", kind, 0, 13, 0)
}

// Fault 23 of unused numbers, kinds, LOAD's register and groups.
fn numbers(rt: &impl Print) -> io::Result<()> {
    instruction(rt, b"LOAD 0 7 1", [LOAD, 0, 7, 1], 0)?;
    instruction(rt, b"ADD 0 12 1", [ADD, 0, 12, 1], 0)?;
    instruction(rt, b"CUT 0 12 1", [CUT, 0, 12, 1], 0)?;
    instruction(rt, b"BOTH 0 12 1", [BOTH, 0, 12, 1], 0)?;
    instruction(rt, b"kind 0", [0, 0, 12, 0], 0)?;
    instruction(rt, b"kind 6", [6, 0, 12, 0], 0)?;
    instruction(rt, b"LOAD 12 7, shown 12", [LOAD, 12, 7, 0], 12)?;
    instruction(rt, b"LOAD 13 7", [LOAD, 13, 7, 0], 0)?;
    instruction(rt, b"group 0", [LOAD, 0, 0, 0], 0)?;
    instruction(rt, b"group 60000", [LOAD, 0, 60000, 0], 0)?;
    instruction(rt, b"group 60001", [LOAD, 0, 60001, 0], 0)
}

// SHOW with these numbers, when register 0 holds lamp 1.
fn shown(rt: &impl Print, label: &[u8], [a, b, c]: [u16; 3]) -> io::Result<()> {
    case(rt, label, &[LOAD, 0, 7, 0, SHOW, a, b, c], &[7, 1])
}

fn shows(rt: &impl Print) -> io::Result<()> {
    shown(rt, b"SHOW 0", [0, 0, 0])?;
    shown(rt, b"SHOW 12, never written", [12, 0, 0])?;
    shown(rt, b"SHOW 13", [13, 0, 0])?;
    shown(rt, b"SHOW 0 1 0", [0, 1, 0])?;
    shown(rt, b"SHOW 0 0 1", [0, 0, 1])
}

// Three instructions of these kinds, whose other numbers are 0.
fn kinds(rt: &impl Print, label: &[u8], [a, b, c]: [u16; 3]) -> io::Result<()> {
    case(rt, label, &[a, 0, 0, 0, b, 0, 0, 0, c, 0, 0, 0], &[7, 1])
}

// "SHOW, kind 5, stands last and there only, else 23".
fn places(rt: &impl Print) -> io::Result<()> {
    case(rt, b"SHOW alone", &[SHOW, 0, 0, 0], &[7, 1])?;
    kinds(rt, b"SHOW last", [ADD, ADD, SHOW])?;
    kinds(rt, b"SHOW missing", [ADD, ADD, ADD])?;
    kinds(rt, b"SHOW first", [SHOW, ADD, ADD])?;
    kinds(rt, b"SHOW first and last", [SHOW, ADD, SHOW])?;
    kinds(rt, b"SHOW in the middle", [ADD, SHOW, ADD])?;
    kinds(rt, b"SHOW twice at the end", [ADD, SHOW, SHOW])?;
    kinds(rt, b"kind 0 last", [ADD, ADD, 0])?;
    kinds(rt, b"kind 6 last", [ADD, ADD, 6])
}

// Faults 21 and 22. The longest code here also has fault 23, which comes later.
fn lengths(rt: &impl Print) -> io::Result<()> {
    let code = SHORT;
    show(rt, b"63 bytes", &code, &[7, 1], &mut [BEFORE; 63])?;
    show(rt, b"64 bytes", &code, &[7, 1], &mut [BEFORE; 64])?;
    case(rt, b"0 instructions", &[], &[7, 1])?;
    case(rt, b"5 numbers", &code[..5], &[7, 1])?;
    case(rt, b"6 numbers", &code[..6], &[7, 1])?;
    case(rt, b"7 numbers", &code[..7], &[7, 1])?;
    case(rt, b"8,193 instructions", &[0; 32772], &[7, 1])
}

// 8,191 times LOAD, and SHOW. The last LOAD has group 8: its lamp tells that all were carried out.
fn most_instructions(rt: &impl Print) -> io::Result<()> {
    let mut code = [[LOAD, 0, 7, 0]; 8192];
    code[8190] = [LOAD, 0, 8, 0];
    code[8191] = [SHOW, 0, 0, 0];
    case(
        rt,
        b"8,192 instructions",
        code.as_flattened(),
        &[7, 1, 8, 2],
    )
}

// A patch, when group 7 is shown.
fn patched(rt: &impl Print, label: &[u8], patch: &[u16]) -> io::Result<()> {
    case(rt, label, &SHORT, patch)
}

// Fault 24, and lamps.
fn patches(rt: &impl Print) -> io::Result<()> {
    patched(rt, b"a patch of odd length", &[7, 1, 7])?;
    patched(rt, b"4,096 pairs", &[7; 8192])?;
    patched(rt, b"4,097 pairs", &[7; 8194])?;
    patched(rt, b"an empty patch", &[])?;
    patched(rt, b"a pair twice", &[7, 3, 7, 3])?;
    patched(
        rt,
        b"lamps 1 8 9 64 65 512",
        &[7, 1, 7, 8, 7, 9, 7, 64, 7, 65, 7, 512],
    )
}

// One pair, after lamp 1 in group 7.
fn pair(rt: &impl Print, label: &[u8], group: u16, lamp: u16) -> io::Result<()> {
    patched(rt, label, &[7, 1, group, lamp])
}

// Fault 25.
fn pairs(rt: &impl Print) -> io::Result<()> {
    pair(rt, b"a pair of group 0", 0, 1)?;
    pair(rt, b"a pair of group 60000", 60000, 2)?;
    pair(rt, b"a pair of group 60001", 60001, 1)?;
    pair(rt, b"a pair of lamp 0", 7, 0)?;
    pair(rt, b"a pair of lamp 512", 7, 512)?;
    pair(rt, b"a pair of lamp 513", 7, 513)
}

// A fault with each later one: the first listed is the one given.
fn faults(rt: &impl Print) -> io::Result<()> {
    let patch = [7, 513, 7];
    show(
        rt,
        b"21 to 25",
        &[LOAD, 13, 7, 0, SHOW],
        &patch,
        &mut [BEFORE; 63],
    )?;
    case(rt, b"22 to 25", &[LOAD, 13, 7, 0, SHOW], &patch)?;
    case(rt, b"23 to 25", &[LOAD, 13, 7, 0, SHOW, 0, 0, 0], &patch)?;
    patched(rt, b"24 and 25", &patch)?;
    patched(rt, b"24 and 25, 4,097 pairs of group 0", &[0; 8194])
}

fn main(rt: HostRuntime) -> io::Result<()> {
    operation(&rt, b"ADD", ADD)?;
    operation(&rt, b"CUT", CUT)?;
    operation(&rt, b"BOTH", BOTH)?;
    numbers(&rt)?;
    shows(&rt)?;
    places(&rt)?;
    lengths(&rt)?;
    most_instructions(&rt)?;
    patches(&rt)?;
    pairs(&rt)?;
    faults(&rt)
}
