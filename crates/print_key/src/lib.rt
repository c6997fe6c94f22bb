// What both key programs do: reads a sheet from standard input and prints its key for a device, by the move table in its argument's file
// or, without an argument, by ours. All the work is `key`'s.
#![tactic(auto)]

use std::io;
use std::rt::{Env, Files};

// The key of a sheet by the table that the program was asked for.
fn answer(
    rt: &(impl Files + Env),
    sheet: &[u8],
    out: &mut [u8],
    device: printing::Device,
) -> Result<usize, key::ShortBuffer> {
    if !input::has_argument(rt, 1) {
        return key::key(sheet, out, device);
    }
    let mut table = [0u8; move_table::ENOUGH_BYTES];
    let count = input::read_named(rt, 1, &mut table);
    key::key_with(sheet, &table[..count], out, device)
}

// Reads and prints.
pub fn print_key(
    rt: &(impl Files + Env + Input + Print),
    device: printing::Device,
) -> io::Result<()> {
    let mut sheet = [0u8; sheet::ENOUGH_BYTES];
    let count = input::read_full(&mut rt.reader(), &mut sheet);
    let mut out = [0u8; key::KEY_BYTES];
    let answer = answer(rt, &sheet[..count], &mut out, device);
    let Ok(count) = answer else {
        return Ok(());
    };
    output::print(rt, &out, count)
}
