// All small questions: the tree with a given index, and a tree's index, by counting the lists that come before it.
#![tactic(auto)]

ghost use Rattle.std.specs.Prelude.{◌≡◌, true, List, ℕ, ◌*◌, ◌+◌, ◌≤◌, ◌<◌};
ghost use Rattle.std.proofs.Math.Option.{some};
ghost use Rattle.std.proofs.Math.ListN.{get_elem?};
ghost use Rattle.tree.specs.Tree.{union, sign};
ghost use Rattle.questions.specs.Questions.{entries, questions_of, lengths};
ghost use Rattle.questions.specs.Answer.{refusal_number, index_of, in_array, GivesTree, GivesIndex};
ghost use Rattle.questions.specs.InnerCounts.{are_entries, is_question, count, behind_operator, after, by_kind, ahead, Located, of_length, Row};

use tree::{DIFFERENCE, UNION};

// How many there are, and the entries of a tree of four leaves.
pub const QUESTIONS: usize = 3477;

pub const MOST_ENTRIES: usize = 7;

const ENTRIES: [u16; 5] = [1, 2, 3, UNION, DIFFERENCE];

// Why a call refuses: there is no question with the index, or the list is none.
#[derive(Clone, Copy, Debug, PartialEq, Eq)]
pub enum Refusal {
    NoQuestion,
}

impl From<Refusal> for u16 {
    ghost from_gives = { λ refusal number. number ≡ refusal_number refusal };

    // 02's number.
    fn from(refusal: Refusal) -> u16 {
        match refusal {
            Refusal::NoQuestion => 30,
        }
    }
}

// A tree by value: its entries with 0 behind them, and how many they are. (No heap: so the array is as long as the longest.)
#[derive(Clone, Copy)]
pub struct Question {
    pub entries: [u16; MOST_ENTRIES],
    pub count: usize,
}

// A part of a list of lists, by the length or the first entry that its lists share, and an index in it.
#[derive(Clone, Copy)]
struct Place {
    part: u16,
    index: usize,
}

// How many lists go on behind each group, and how many behind each operator.
#[derive(Clone, Copy)]
struct Behind {
    group: u16,
    operator: u16,
}

// How many questions have fewer than 0 to 7 entries.
const SHORTER: [u16; 8] = [0, 0, 3, 3, 21, 21, 237, 237];

// How many questions have fewer than n entries.
fn shorter(n: usize) -> u16
    requires { n < 8 }
    ensures { result ≡ ahead lengths of_length n }
{
    SHORTER[n]
}

// How many lists of `left` entries make 0 to 7 waiting trees one tree. (One row by value: as a constant, all rows would be written anew
// wherever one is read.)
fn row(left: usize) -> [u16; 8]
    requires { left < 7 }
    ensures { Row left result }
{
    match left {
        0 => [0, 1, 0, 0, 0, 0, 0, 0],
        1 => [3, 0, 2, 0, 0, 0, 0, 0],
        2 => [0, 6, 0, 4, 0, 0, 0, 0],
        3 => [18, 0, 24, 0, 8, 0, 0, 0],
        4 => [0, 72, 0, 72, 0, 16, 0, 0],
        5 => [216, 0, 360, 0, 192, 0, 32, 0],
        _ => [0, 1080, 0, 1296, 0, 480, 0, 64],
    }
}

// How many lists of `left` entries go on where `waiting` trees wait.
fn count_behind(left: usize, waiting: usize) -> Behind
    requires { (left < 7) × (waiting < 7) }
    ensures { (result.group ≡ count left (waiting + 1)) × (result.operator ≡ behind_operator left waiting) }
{
    let counts = row(left);
    if waiting < 2 {
        return Behind {
            group: counts[waiting + 1],
            operator: 0,
        };
    }
    Behind {
        group: counts[waiting + 1],
        operator: counts[waiting - 1],
    }
}

// Among the questions of which length the one with an index is, and with which index there.
#[tactic(auto, using(crate::proofs::CountLaws::located))]
fn length_at(index: usize) -> Place
    requires { index < 3477 }
    ensures { Located lengths of_length index result.part result.index × (result.part ≤ 7) }
{
    if index < 3 {
        return Place { part: 1, index };
    }
    if index < 21 {
        return Place {
            part: 3,
            index: index - 3,
        };
    }
    if index < 237 {
        return Place {
            part: 5,
            index: index - 21,
        };
    }
    Place {
        part: 7,
        index: index - 237,
    }
}

// How many lists begin with an entry before x.
fn preceding(x: u16, behind: Behind) -> usize
    ensures { (result ≡ ahead entries (by_kind behind.group behind.operator) x) × (result ≤ 327675) }
{
    let a = behind.group as usize;
    let b = behind.operator as usize;
    if x == 1 {
        return 0;
    }
    if x == 2 {
        return a;
    }
    if x == 3 {
        return 2 * a;
    }
    if x == UNION {
        return 3 * a;
    }
    if x == DIFFERENCE {
        return 3 * a + b;
    }
    3 * a + 2 * b
}

// With which entry the list with index k begins, and with which index among those that do.
fn beginning(k: usize, behind: Behind) -> Place
    requires { k < 3 * behind.group + 2 * behind.operator }
    ensures { Located entries (by_kind behind.group behind.operator) k result.part result.index }
{
    let a = behind.group as usize;
    let b = behind.operator as usize;
    if k < a {
        return Place { part: 1, index: k };
    }
    if k < 2 * a {
        return Place {
            part: 2,
            index: k - a,
        };
    }
    if k < 3 * a {
        return Place {
            part: 3,
            index: k - 2 * a,
        };
    }
    if k < 3 * a + b {
        return Place {
            part: UNION,
            index: k - 3 * a,
        };
    }
    Place {
        part: DIFFERENCE,
        index: k - 3 * a - b,
    }
}

// Whether every number of a list is one of the five entries.
fn are_entries(list: &[u16]) -> bool
    ensures { result ≡ are_entries list.now }
{
    for x in list {
        if !tree::is_in(&ENTRIES, *x) {
            return false;
        }
    }
    true
}

// Whether a list is a question.
fn is_question(list: &[u16]) -> bool
    ensures { result ≡ is_question list.now }
{
    list.len() <= MOST_ENTRIES && are_entries(list) && tree::is_tree(list)
}

// How many trees wait behind an entry.
fn after(x: u16, waiting: usize) -> usize
    requires { ((sign union ≤ x) → (2 ≤ waiting)) × (waiting < 8) }
    ensures { result ≡ after x waiting }
{
    if x < UNION {
        return waiting + 1;
    }
    waiting - 1
}

// The list with index k among the questions of `length` entries, 0 behind it: entry by entry, each by how many lists begin with which.
fn list_at(length: usize, k: usize) -> [u16; MOST_ENTRIES]
    requires { (length ≤ 7) × (k < count length 0) }
    ensures { (l : List ℕ) → get_elem? (questions_of length) k ≡ some l → result ≡ in_array (some l) }
{
    let mut entries = [0u16; MOST_ENTRIES];
    let mut waiting: usize = 0;
    let mut rest = k;
    for i in 0..length {
        let place = beginning(rest, count_behind(length - i - 1, waiting));
        entries[i] = place.part;
        rest = place.index;
        waiting = after(place.part, waiting);
    }
    entries
}

// The tree with an index.
pub fn tree_at(index: usize) -> Result<Question, Refusal>
    ensures { GivesTree index result }
{
    if QUESTIONS <= index {
        return Err(Refusal::NoQuestion);
    }
    let place = length_at(index);
    let count = place.part as usize;
    let entries = list_at(count, place.index);
    Ok(Question { entries, count })
}

// The index of a list that is a question: how many are shorter, and for each entry how many agree before it and have an earlier one there.
fn index_in(list: &[u16]) -> usize
    requires { is_question list.now ≡ true }
    ensures { index_of list.now ≡ some result }
{
    let mut index = shorter(list.len()) as usize;
    let mut waiting: usize = 0;
    for (i, x) in list.iter().enumerate() {
        index += preceding(*x, count_behind(list.len() - i - 1, waiting));
        waiting = after(*x, waiting);
    }
    index
}

// A tree's index.
pub fn index_of(list: &[u16]) -> Result<usize, Refusal>
    ensures { GivesIndex list.now result }
{
    if !is_question(list) {
        return Err(Refusal::NoQuestion);
    }
    Ok(index_in(list))
}
