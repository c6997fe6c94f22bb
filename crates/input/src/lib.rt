// Reading arguments, files by name and standard input, for the programs.
#![tactic(auto)]

ghost use Rattle.io.specs.Counts.{IsPrefixLen};

use std::env::FillError;
use std::fs;
use std::io::Read;
use std::rt::{Env, Files};

// Whether the program has an argument i. Argument 0 is its name.
pub fn has_argument(rt: &impl Env, i: usize) -> bool {
    !matches!(rt.arg(i, &mut []), Err(FillError::NotPresent))
}

// Reads until the buffer is full, the input ends or a read fails, and returns how many bytes it put at the buffer's start. The loop goes on
// by what each read gives.
pub fn read_full<R: Read>(reader: &mut R, bytes: &mut [u8]) -> usize
    ensures { IsPrefixLen result bytes.new }
{
    let mut done = 0;
    while done < bytes.len() {
        let n = reader.read(&mut bytes[done..]).unwrap_or(0);
        if n == 0 {
            break;
        }
        done += n;
    }
    done
}

// Reads the file that argument i names, as far as the buffer goes, and returns how many bytes it has. A file that can't be opened counts as
// empty, and so does one whose name is missing.
pub fn read_named(rt: &(impl Files + Env), i: usize, bytes: &mut [u8]) -> usize
    ensures { IsPrefixLen result bytes.new }
{
    let mut path = [0u8; 4096];
    let Ok(length) = rt.arg(i, &mut path) else {
        return 0;
    };
    let Ok(path) = str::from_utf8(&path[..length]) else {
        return 0;
    };
    let Ok(mut file) = fs::open(rt, path) else {
        return 0;
    };
    read_full(&mut file, bytes)
}
