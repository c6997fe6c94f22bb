// What the edge cases of both players share: the line of a case.
#![tactic(auto)]

use player::Refusal;
use std::io;

// What every byte is before a case.
pub const BEFORE: u8 = 165;

// 01's number of an answer.
fn number(answer: Result<(), Refusal>) -> u16 {
    answer.err().map_or(0, u16::from)
}

// How many bytes are as before.
fn unchanged(lamps: &[u8]) -> usize {
    lamps.iter().filter(|lamp| **lamp == BEFORE).count()
}

// Prints a byte that has lamps lit.
fn print_byte(rt: &impl Print, position: usize, value: u8) -> io::Result<()> {
    if (value != 0) & (value != BEFORE) {
        print!(rt; " {position}={value:02x}")?;
    }
    Ok(())
}

fn print_bytes(rt: &impl Print, lamps: &[u8]) -> io::Result<()> {
    for (i, lamp) in lamps.iter().enumerate() {
        print_byte(rt, i, *lamp)?;
    }
    Ok(())
}

// The line of one case: the number answered, how many bytes are as before, and each other byte that is not 0, as position=value in
// hexadecimal.
pub fn report(
    rt: &impl Print,
    label: &[u8],
    answer: Result<(), Refusal>,
    lamps: &[u8],
) -> io::Result<()> {
    rt.write_all(label)?;
    print!(rt; ": {}, unchanged {}", number(answer), unchanged(lamps))?;
    print_bytes(rt, lamps)?;
    rt.write_all(b"\n")
}
