// The move entries of Table 9, the state of a part, and the next state that an entry leads to. Nothing here knows a list of lifts.
#![tactic(auto)]

ghost use Rattle.std.specs.Prelude.{◌≡◌, ◌≤◌};
ghost use Rattle.tree.specs.Tree.{Operator};
ghost use Rattle.tree.specs.Context.{Side};
ghost use Rattle.tree.specs.InnerPart.{kind_of};
ghost use Rattle.moves.specs.Moves.{basic, state_with};
ghost use Rattle.moves.specs.InnerEntries.{number_of, operand_number, column, EntryIs, NextIs};

use tree::Operand;

// A table's words: their signs, in rows of 31, and their lengths.
#[derive(Clone, Copy)]
pub struct TableWords<'a> {
    pub signs: &'a [u8],
    pub lengths: &'a [u8],
}

// No words stand for our own table.
pub const OUR_OWN: TableWords<'static> = TableWords {
    signs: &[],
    lengths: &[],
};

// Table 9, state 9 by request 2: the move entries, operands before operators, + for union and - for difference: a row for each state, under
// inputs a b c d. In states 1 to 4 they replace T alone, in states 5 to 9 T with D.
const MOVES: [[[u8; 13]; 4]; 9] = [
    [
        *b"ABC++        ",
        *b"ABC++        ",
        *b"ABC++        ",
        *b"ABC++        ",
    ],
    [
        *b"CB-A-        ",
        *b"CB-A-        ",
        *b"CB-A-        ",
        *b"CB-A-        ",
    ],
    [
        *b"ABC+-        ",
        *b"ABC+-        ",
        *b"ABC+-        ",
        *b"ABC+-        ",
    ],
    [
        *b"BC-A-        ",
        *b"BC-A-        ",
        *b"BC-A-        ",
        *b"BC-A-        ",
    ],
    [
        *b"DBC-+AC-+    ",
        *b"ACD+-BC-D-+  ",
        *b"AC-DBC-++    ",
        *b"DBC--AC--    ",
    ],
    [
        *b"DC+AB-+      ",
        *b"ABD+-CD-+    ",
        *b"AB-DC++      ",
        *b"DC-AB--      ",
    ],
    [
        *b"DC+BA-+      ",
        *b"BD-A-CD-+    ",
        *b"BA-DC++      ",
        *b"DC-BA--      ",
    ],
    [
        *b"DCCB--+CA-+  ",
        *b"CD-A-CCB--D-+",
        *b"CA-DCCB--++  ",
        *b"DCCB---CA--  ",
    ],
    [
        *b"CD+BD-A--    ",
        *b"CD-BA--      ",
        *b"CD+BD-A--    ",
        *b"DC-DDB--A-+  ",
    ],
];

// The state by which operand A is and which its parent is: A U B, A - B, B U A, B - A, and the same with the parent's part for A and C for B.
// A state stays a number, not an enum: the papers number the states, and the number is its row among the move entries.
const STATES: [[usize; 4]; 4] = [[1, 5, 1, 2], [6, 3, 6, 8], [1, 5, 1, 2], [7, 4, 7, 9]];

// States 1 to 4 replace T alone, the others T with D.
pub const LAST_ALONE: usize = 4;

// The place of an operand in these tables.
fn place(operand: Operand) -> usize
    ensures { result ≡ operand_number operand }
{
    operand as usize
}

// The place of an input among a b c d. Where there is none, in states 1 to 4, the entries of all inputs are the same, and a's is taken.
pub fn column(input: Option<Operand>) -> usize
    ensures { result ≡ column input }
{
    input.map_or(0, place)
}

// The word of a move entry, by its place in the row of the state (`column`); places are counted round.
pub fn move_word(state: usize, input: usize) -> [u8; 13]
    requires { (1 ≤ state) × (state ≤ 9) }
    ensures { EntryIs state input result }
{
    MOVES[state - 1][input % 4]
}

// The state of a part, by which operand it is and which its parent is, if it has one.
pub fn state_of(own: Option<Operand>, parent: Option<Operand>) -> Option<usize>
    ensures { (s : Side) (o : Operator) (t : Side) (q : Operator) → own ≡ kind_of s o → parent ≡ kind_of t q
        → result ≡ number_of (state_with s (basic o) t (basic q)) }
{
    Some(STATES[place(own?)][place(parent?)])
}

// The state after a step, from the frames that the entry's word leaves above A: one and the input's where T alone is replaced; two where T
// with D is. None where there is no input.
pub fn next_state(word: &[u8], alone: bool, input: Option<Operand>) -> Option<usize>
    ensures { NextIs word.now alone input result }
{
    let above_t = input?;
    let above = words::above_a(word);
    if alone {
        return state_of(above.own, Some(above_t));
    }
    state_of(above.own, above.parent)
}
