// Prints all small questions, a line for each; with an index as argument that one only, or `NO` and the refusal's number. An argument that is
// no number, or is larger than 65,534, counts as past the last. All the work is `question_lines`'.
#![tactic(auto)]

use std::env::FillError;
use std::io;
use std::rt::Env;

// Prints the line for an index.
fn print_one(rt: &impl Print, index: usize) -> io::Result<()> {
    let line = question_lines::line_at(index);
    let bytes = line.bytes;
    output::print(rt, &bytes, line.count)
}

fn print_all(rt: &impl Print) -> io::Result<()> {
    for index in 0..questions::QUESTIONS {
        print_one(rt, index)?;
    }
    Ok(())
}

fn main(rt: HostRuntime) -> io::Result<()> {
    let mut argument = [0u8; 4096];
    match rt.arg(1, &mut argument) {
        Ok(length) => {
            let index = text::number(&argument[..length]);
            print_one(&rt, index.map_or(questions::QUESTIONS, usize::from))
        }
        Err(FillError::TooLong) => print_one(&rt, questions::QUESTIONS),
        Err(FillError::NotPresent) => print_all(&rt),
    }
}
