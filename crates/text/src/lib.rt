// Decimal fields and lines, read and written.
#![tactic(auto)]

ghost use Rattle.std.specs.Prelude.{◌≡◌, ◌+◌, ◌≤◌, ◌<◌, length, MatchOption};
ghost use Rattle.tree.specs.InnerWriting.{Wrote};
ghost use Rattle.text.specs.Inner.{capped, digit_after, field, fields_after, ahead};
ghost use Rattle.text.specs.Decimal.{digits, decimal};
ghost use Rattle.text.specs.Line.{line};

pub const TAB: u8 = 9;

pub const LINE_FEED: u8 = 10;

const NOUGHT: u8 = 48;

// The largest number that `number` reads.
pub const MOST_NUMBER: u16 = 65534;

// How many bytes stand before the first b, if there is one.
pub fn find(bytes: &[u8], b: u8) -> Option<usize>
    ensures { MatchOption result (ahead b bytes.now ≡ length bytes.now) (λ k. (k ≡ ahead b bytes.now) × (k < length bytes.now)) }
{
    bytes.iter().position(|x| *x == b)
}

// The number so far with one byte more, if that is a digit and the number not too large.
fn digit_after(v: u16, d: u8) -> Option<u16>
    ensures { result ≡ digit_after v d }
{
    if !d.is_ascii_digit() {
        return None;
    }
    let w = u32::from(v) * 10 + u32::from(d - NOUGHT);
    if w <= u32::from(MOST_NUMBER) {
        Some(w as u16)
    } else {
        None
    }
}

// The number of a decimal field, if it is one and not too large.
pub fn number(bytes: &[u8]) -> Option<u16>
    ensures { result ≡ capped (decimal bytes.now) }
{
    if bytes.is_empty() {
        return None;
    }
    if 1 < bytes.len() && bytes[0] == NOUGHT {
        return None;
    }
    let mut v = 0;
    for d in bytes {
        v = digit_after(v, *d)?;
    }
    Some(v)
}

// Writes a number's decimal digits.
#[tactic(auto, using(crate::proofs::DecimalLaws::lengths))]
pub fn put_decimal(n: usize, out: &mut [u8], at: usize) -> usize
    requires { at + length (digits n) ≤ length out.old }
    ensures { Wrote out.old at out.new result (digits n) }
{
    if n < 10 {
        return tree::write_one(NOUGHT + (n as u8), out, at);
    }
    let next = put_decimal(n / 10, out, at);
    tree::write_one(NOUGHT + ((n % 10) as u8), out, next)
}

// Writes a tab and a number.
fn put_field(n: usize, out: &mut [u8], at: usize) -> usize
    requires { at + length (field n) ≤ length out.old }
    ensures { Wrote out.old at out.new result (field n) }
{
    let next = tree::write_one(TAB, out, at);
    put_decimal(n, out, next)
}

// Writes each number after a tab.
#[tactic(auto, using(crate::proofs::LineLaws::fields_room))]
fn put_fields(numbers: &[usize], out: &mut [u8], at: usize) -> usize
    requires { at + length (fields_after numbers.now) ≤ length out.old }
    ensures { Wrote out.old at out.new result (fields_after numbers.now) }
{
    let mut next = at;
    for n in numbers {
        next = put_field(*n, out, next);
    }
    next
}

// Writes a line of a word and numbers.
#[tactic(auto, using(crate::proofs::LineLaws::line_length))]
pub fn put_line(word: &[u8], numbers: &[usize], out: &mut [u8], at: usize) -> usize
    requires { at + length (line word.now numbers.now) ≤ length out.old }
    ensures { Wrote out.old at out.new result (line word.now numbers.now) }
{
    let first = tree::copy(word, out, at);
    let next = put_fields(numbers, out, first);
    tree::write_one(LINE_FEED, out, next)
}
