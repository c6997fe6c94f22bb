// Printing, for the programs.
#![tactic(auto)]

use std::io;

// Prints the first `count` bytes.
pub fn print(rt: &impl Print, bytes: &[u8], count: usize) -> io::Result<()> {
    if count <= bytes.len() {
        rt.write_all(&bytes[..count])?;
    }
    Ok(())
}
