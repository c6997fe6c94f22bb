// The line that the questions' program prints for an index.
#![tactic(auto)]

ghost use Rattle.std.specs.Prelude.{◌≡◌, true, ◌∷◌, [], ◌+◌, ◌*◌, ◌≤◌, ◌<◌, length};
ghost use Rattle.std.proofs.Math.Option.{some};
ghost use Rattle.tree.specs.Tree.{is_in};
ghost use Rattle.tree.specs.Pass.{entry_of};
ghost use Rattle.tree.specs.InnerWriting.{Wrote};
ghost use Rattle.text.specs.Line.{line};
ghost use Rattle.printing.specs.Key.{NO};
ghost use Rattle.questions.specs.Questions.{entries};
ghost use Rattle.questions.specs.InnerCounts.{are_entries};
ghost use Rattle.question_lines.specs.Lines.{printed_as, line_text, in_line, line_at};
ghost use Rattle.question_lines.specs.InnerFields.{entries_after};

use tree::{DIFFERENCE, UNION};

// An index of four digits, seven entries of one byte with a tab before each, and LF.
pub const LINE_BYTES: usize = 19;

// A line, with 0 behind it. (No heap: so the array is as long as the longest line.)
#[derive(Clone, Copy)]
pub struct QuestionLine {
    pub bytes: [u8; LINE_BYTES],
    pub count: usize,
}

// The byte of an entry: a group of one digit, or an operator's letter.
fn entry_byte(x: u16) -> u8
    requires { is_in entries x ≡ true }
    ensures { result ∷ [] ≡ printed_as (entry_of x) }
{
    if x == UNION {
        return b'U';
    }
    if x == DIFFERENCE {
        return b'D';
    }
    b'0' + (x as u8)
}

// Writes each entry after a tab.
fn put_entries(list: &[u16], out: &mut [u8], at: usize) -> usize
    requires { (are_entries list.now ≡ true) × (at + 2 * length list.now ≤ length out.old) }
    ensures { (result ≡ at + 2 * length list.now) × Wrote out.old at out.new result (entries_after list.now) }
{
    let mut next = at;
    for x in list {
        let field = [text::TAB, entry_byte(*x)];
        next = tree::copy(&field, out, next);
    }
    next
}

// The line of a tree with its index.
fn put_tree(index: usize, list: &[u16]) -> QuestionLine
    requires { (index < 3477) × (length list.now ≤ 7) × (are_entries list.now ≡ true) }
    ensures { result ≡ in_line (line_text index (some list.now)) }
{
    let mut bytes = [0u8; LINE_BYTES];
    let first = text::put_decimal(index, &mut bytes, 0);
    let next = put_entries(list, &mut bytes, first);
    let count = tree::write_one(text::LINE_FEED, &mut bytes, next);
    QuestionLine { bytes, count }
}

// The line of a refusal.
fn put_refusal(number: u16) -> QuestionLine
    ensures { result ≡ in_line (line NO (number ∷ [])) }
{
    let mut bytes = [0u8; LINE_BYTES];
    let count = text::put_line(b"NO", &[number as usize], &mut bytes, 0);
    QuestionLine { bytes, count }
}

// The line for an index.
pub fn line_at(index: usize) -> QuestionLine
    ensures { result ≡ line_at index }
{
    match questions::tree_at(index) {
        Ok(question) => put_tree(index, &question.entries[..question.count]),
        Err(refusal) => put_refusal(u16::from(refusal)),
    }
}
