// Loading a school's move table: any bytes to its 36 words, or the first fault.
#![tactic(auto)]

ghost use Rattle.std.specs.Prelude.{◌≡◌, ◌∷◌, [], ◌<◌, ◌≤◌, length, drop};
ghost use Rattle.text.specs.Line.{line_feed};
ghost use Rattle.words.specs.Word.{sign_of, allowed, most_signs};
ghost use Rattle.left_sides.specs.InnerStands.{is_formula};
ghost use Rattle.move_table.specs.Loading.{front, signs_in, starts_with, loading};
ghost use Rattle.move_table.specs.Packing.{fault_number, load_says, loading_says, all_zero, entry_of_row, unpacked};
ghost use Rattle.move_table.specs.InnerLoading.{place_at, line_signs, is_table};

use words::MOST_SIGNS;

// A table's words, a row for each, in the order of the file's lines.
pub const WORDS: usize = 36;

// Their signs, in rows of 31.
pub const SIGNS: usize = 1116;

// A table has at most 36 bytes in each of its 36 lines. One byte more is a 37th line, or too long a word before it.
pub const ENOUGH_BYTES: usize = 1297;

// The bytes of a line before its word.
const FRONT: usize = 4;

// The digit of state 1 and the letter of the first input.
const FIRST_STATE: u8 = b'1';

const FIRST_INPUT: u8 = b'a';

// A loaded table: the words' signs, in rows of 31 of which what a word leaves is 0, and the words' lengths. Two arrays, since they are what C hands
// over to `lift_with_call`, and what the theorem `made_exactly` is about.
#[derive(Clone, Copy)]
pub struct LoadedTable {
    pub signs: [u8; SIGNS],
    pub lengths: [u8; 36],
}

// What is wrong with a line.
#[derive(Clone, Copy, Debug, PartialEq, Eq)]
pub enum Fault {
    // It is not of good form, not the one due there, missing, or one too many.
    BadLine,
    // Its word is of allowed signs and may not stand at its place.
    BadWord,
}

// 02's number of a fault.
impl From<Fault> for u16 {
    ghost from_gives = { λ fault number. number ≡ fault_number fault };

    fn from(fault: Fault) -> u16 {
        match fault {
            Fault::BadLine => 28,
            Fault::BadWord => 29,
        }
    }
}

// The first fault of a table that is refused, and its line.
#[derive(Clone, Copy, Debug, PartialEq, Eq)]
pub struct Refusal {
    pub fault: Fault,
    pub line: usize,
}

// Whether a byte is one of the signs A B C D + -.
fn is_sign(b: u8) -> bool
    ensures { result ≡ allowed (sign_of b) }
{
    matches!(b, b'A'..=b'D' | b'+' | b'-')
}

// How many signs some bytes begin with.
fn word_length(bytes: &[u8]) -> usize
    ensures { (result ≡ length (signs_in bytes.now)) × (result ≤ length bytes.now) }
{
    bytes
        .iter()
        .position(|b| !is_sign(*b))
        .unwrap_or(bytes.len())
}

// Whether some bytes begin with the state and the letter of a place, a tab after each.
fn has_front(bytes: &[u8], place: usize) -> bool
    requires { place < 36 }
    ensures { result ≡ starts_with (front (place_at place)) bytes.now }
{
    let state = FIRST_STATE + (place / 4) as u8;
    let input = FIRST_INPUT + (place % 4) as u8;
    bytes.starts_with(&[state, text::TAB, input, text::TAB])
}

// Whether LF stands at an index.
fn ends_line(bytes: &[u8], at: usize) -> bool
    ensures { result ≡ starts_with (line_feed ∷ []) (drop at bytes.now) }
{
    bytes.get(at) == Some(&text::LINE_FEED)
}

// How many signs the word of the line with which some bytes begin has; none where that is no line of good form for its place.
fn line_signs(bytes: &[u8], place: usize) -> Option<usize>
    requires { place < 36 }
    ensures { result ≡ line_signs (place_at place) bytes.now }
{
    if has_front(bytes, place) {
        let n = word_length(&bytes[FRONT..]);
        if (1..=MOST_SIGNS).contains(&n) && ends_line(bytes, FRONT + n) {
            return Some(n);
        }
    }
    None
}

// Loads a table: each line in turn, its word into its row.
pub fn load(bytes: &[u8]) -> Result<LoadedTable, Refusal>
    ensures { load_says result ≡ loading_says (loading bytes.now) }
{
    let mut signs = [0u8; SIGNS];
    let mut lengths = [0u8; 36];
    let mut at = 0;
    for place in 0..WORDS {
        let rest = &bytes[at..];
        let line = place + 1;
        let n = line_signs(rest, place).ok_or(Refusal {
            fault: Fault::BadLine,
            line,
        })?;
        let end = FRONT + n;
        let word = &rest[FRONT..end];
        if !left_sides::stands(word, place) {
            return Err(Refusal {
                fault: Fault::BadWord,
                line,
            });
        }
        tree::copy(word, &mut signs, MOST_SIGNS * place);
        lengths[place] = n as u8;
        at += end + 1;
    }
    if at < bytes.len() {
        return Err(Refusal {
            fault: Fault::BadLine,
            line: WORDS + 1,
        });
    }
    Ok(LoadedTable { signs, lengths })
}

// Whether there is nothing but zeros.
fn all_zero(bytes: &[u8]) -> bool
    ensures { result ≡ all_zero bytes.now }
{
    bytes.iter().all(|b| *b == 0)
}

// Whether a row and a length are those of a word that may stand at a place.
fn is_row(row: &[u8], n: usize, place: usize) -> bool
    requires row_len { length row.now ≡ most_signs }
    requires place_bound { place < 36 }
    ensures { result ≡ is_formula (entry_of_row (place_at place) row.now n) }
{
    (1..=MOST_SIGNS).contains(&n) && all_zero(&row[n..]) && left_sides::stands(&row[..n], place)
}

// Whether loading could have made a table.
pub fn is_loaded(table: LoadedTable) -> bool
    ensures { result ≡ is_table (unpacked table) }
{
    for place in 0..WORDS {
        let from = MOST_SIGNS * place;
        let row = &table.signs[from..from + MOST_SIGNS];
        if !is_row(row, usize::from(table.lengths[place]), place) {
            return false;
        }
    }
    true
}
