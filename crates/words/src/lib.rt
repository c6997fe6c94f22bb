// Words of the signs A B C D + -: how a word's list is written by copying parts, what stands above A in a word, and how a stretch of a list is
// replaced by what a word stands for. Nothing here knows a state or a table.
#![tactic(auto)]

ghost use Rattle.std.specs.Prelude.{◌≡◌, List, ℕ, ◌+◌, ◌*◌, ◌≤◌, ◌<◌, length};
ghost use Rattle.tree.specs.Tree.{most_nodes};
ghost use Rattle.tree.specs.InnerWriting.{Wrote};
ghost use Rattle.words.specs.InnerWords.{part_of, operator_number, Range, Within, Bounded, sign_for, spell, replaced};
ghost use Rattle.words.specs.Word.{most_signs};
ghost use Rattle.words.specs.InnerAbove.{PlaceIs, FrameAfter, AboveIs};
ghost use Rattle.words.specs.InnerReplacing.{Replaced};

use tree::{DIFFERENCE, MOST_NODES, Operand, Stretch, UNION};

// "at most 31 signs"
pub const MOST_SIGNS: usize = 31;

// A frame in a word: which operand the part below it is, and the index after its operator.
#[derive(Clone, Copy)]
struct WordFrame {
    operand: Operand,
    end: usize,
}

// What stands above A in a word: which operand A is, and which its parent is; none where there is no such frame.
#[derive(Clone, Copy)]
pub struct AboveA {
    pub own: Option<Operand>,
    pub parent: Option<Operand>,
}

// What a replacement made: how many nodes the new tree has, and where A begins in it.
#[derive(Clone, Copy)]
pub struct Replacement {
    pub nodes: usize,
    pub from: usize,
}

// Which of the four parts a sign names.
fn part_of(sign: u8) -> Option<usize>
    ensures { result ≡ part_of sign }
{
    match sign {
        b'A'..=b'D' => Some((sign - b'A') as usize),
        _ => None,
    }
}

// The operator that a sign is, by its number in lists.
fn operator_of(sign: u8) -> Option<u16>
    ensures { result ≡ operator_number sign }
{
    match sign {
        b'+' => Some(UNION),
        b'-' => Some(DIFFERENCE),
        _ => None,
    }
}

// Writes what a sign of a word stands for: one of four stretches of the list, an operator, or nothing.
fn write_sign(list: &[u16], parts: [Stretch; 4], sign: u8, out: &mut [u16], at: usize) -> usize
    requires within { Within list.now parts }
    requires sign_in_bounds { at + length (sign_for list.now parts sign) ≤ length out.old }
    ensures { Wrote out.old at out.new result (sign_for list.now parts sign) }
{
    if let Some(named) = part_of(sign) {
        let part = parts[named];
        return tree::copy(&list[part.from..part.to], out, at);
    }
    match operator_of(sign) {
        Some(operator) => tree::write_one(operator, out, at),
        None => at,
    }
}

// Writes what a word stands for, by copying parts. It goes by the word alone, whichever word it is.
fn write_word(list: &[u16], parts: [Stretch; 4], word: &[u8], out: &mut [u16], at: usize) -> usize
    requires within { Within list.now parts }
    requires word_in_bounds { at + length (spell list.now parts word.now) ≤ length out.old }
    ensures { Wrote out.old at out.new result (spell list.now parts word.now) }
{
    let mut next = at;
    for sign in word {
        next = write_sign(list, parts, *sign, out, next);
    }
    next
}

// How many entries a sign of a word stands for.
fn sign_width(parts: [Stretch; 4], sign: u8) -> usize
    requires { Bounded parts }
    ensures by_index { (l : List ℕ) → Within l parts → result ≡ length (sign_for l parts sign) }
    ensures upper_bound { result ≤ most_nodes }
{
    if let Some(named) = part_of(sign) {
        let part = parts[named];
        return part.to - part.from;
    }
    match operator_of(sign) {
        Some(_) => 1,
        None => 0,
    }
}

// How many entries a word stands for.
fn word_width(parts: [Stretch; 4], word: &[u8]) -> usize
    requires bounded { Bounded parts }
    requires word_len_bound { length word.now ≤ most_signs }
    ensures by_index { (l : List ℕ) → Within l parts → result ≡ length (spell l parts word.now) }
    ensures upper_bound { result ≤ most_signs * most_nodes }
{
    let mut width = 0;
    for sign in word {
        width += sign_width(parts, *sign);
    }
    width
}

// The place of A in a word: how many signs stand before it.
fn place_of_a(word: &[u8]) -> usize
    ensures { PlaceIs word.now result }
{
    word.iter()
        .position(|sign| *sign == b'A')
        .unwrap_or(word.len())
}

// The first frame above the part of a word that ends before `from`: that of the first operator that finds at most one operand after the part.
fn frame_after(word: &[u8], from: usize) -> Option<WordFrame>
    ensures { FrameAfter word.now from result }
{
    let mut operands: usize = 0;
    for i in from..word.len() {
        if part_of(word[i]).is_some() {
            operands += 1;
        } else {
            let operator = operator_of(word[i])?;
            if operands < 2 {
                let operand = tree::operand_of(operator, operands == 0)?;
                return Some(WordFrame {
                    operand,
                    end: i + 1,
                });
            }
            operands -= 1;
        }
    }
    None
}

// What stands above A in a word in which A stands once, whichever word it is.
pub fn above_a(word: &[u8]) -> AboveA
    ensures { AboveIs word.now result }
{
    let own = frame_after(word, place_of_a(word) + 1);
    let parent = own.and_then(|own| frame_after(word, own.end));
    AboveA {
        own: own.map(|frame| frame.operand),
        parent: parent.map(|frame| frame.operand),
    }
}

// Writes the list with the old stretch replaced by what the word stands for.
fn write_replaced(
    list: &[u16],
    parts: [Stretch; 4],
    word: &[u8],
    old: Stretch,
    out: &mut [u16],
) -> usize
    requires within { Within list.now parts }
    requires old_within { Range list.now old }
    requires end_in_bounds { length (replaced list.now parts word.now old) ≤ length out.old }
    ensures { Wrote out.old 0 out.new result (replaced list.now parts word.now old) }
{
    let first = tree::copy(&list[..old.from], out, 0);
    let second = write_word(list, parts, word, out, first);
    tree::copy(&list[old.to..], out, second)
}

// The same where the result is not too long; none where it is.
pub fn replace(
    list: &[u16],
    parts: [Stretch; 4],
    word: &[u8],
    old: Stretch,
    out: &mut [u16],
) -> Option<Replacement>
    requires within { Within list.now parts }
    requires old_within { Range list.now old }
    requires list_len_bound { (length list.now ≤ most_nodes) × (most_nodes ≤ length out.old) }
    requires word_len_bound { length word.now ≤ most_signs }
    ensures { Replaced list.now parts word.now old result out.new }
{
    let nodes = old.from + word_width(parts, word) + (list.len() - old.to);
    if MOST_NODES < nodes {
        return None;
    }
    let before = place_of_a(word);
    let from = old.from + word_width(parts, &word[..before]);
    write_replaced(list, parts, word, old, out);
    Some(Replacement { nodes, from })
}
