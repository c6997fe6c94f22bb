// Refused sheets of standard input, each behind a line with its length.
ghost use Rattle.std.specs.Prelude.{◌≤◌, ◌<◌, length};

use std::io;
use std::ops::Range;

// Where the next sheet stands.
fn sheet_after(input: &[u8], at: usize) -> Range<usize>
    requires { at < length input.now }
    ensures { (at < result.end) × (result.start ≤ result.end) × (result.end ≤ length input.now) }
{
    let rest = &input[at..];
    let Some(k) = text::find(rest, text::LINE_FEED) else {
        return input.len()..input.len();
    };
    let from = at + k + 1;
    match text::number(&rest[..k]) {
        Some(n) if usize::from(n) <= input.len() - from => from..from + usize::from(n),
        _ => from..input.len(),
    }
}

fn show(rt: &impl Print, bytes: &[u8]) -> io::Result<()> {
    match sheet::read(bytes) {
        Ok(_) => println!(rt; "NO\t0\t0"),
        Err(refusal) => println!(rt; "NO\t{}\t{}", u8::from(refusal.fault), refusal.line),
    }
}

// From a sheet to the byte after it.
fn show_all(rt: &impl Print, input: &[u8]) -> io::Result<()> {
    let mut at = 0;
    // A `while`: where the next sheet stands is known only from the line before it.
    while at < input.len() {
        let sheet = sheet_after(input, at);
        show(rt, &input[sheet.start..sheet.end])?;
        at = sheet.end;
    }
    Ok(())
}

pub fn refusals(rt: &(impl Input + Print)) -> io::Result<()> {
    let mut buffer = [0u8; 65536];
    let n = input::read_full(&mut rt.reader(), &mut buffer);
    show_all(rt, &buffer[..n])
}
