// What the coders of both devices share: notes of a tree's nodes and, by them, a node's children in the order of their code; an
// instruction's four numbers, written; an operator's kind.
//
// One pass over the tree's list notes where each node's part begins and what it needs. With these notes a node's children
// are found from its entry: the right one is the entry before, the left one the entry before the right part's start.
#![tactic(auto)]

ghost use Rattle.std.specs.Prelude.{◌≡◌, true, cond, [], ◌∷◌, ◌+◌, ◌<◌, ◌≤◌, length};
ghost use Rattle.tree.specs.Tree.{Operator, sign, most_nodes};
ghost use Rattle.tree.specs.Parse.{tree_of, is_some};
ghost use Rattle.tree.specs.InnerWriting.{Wrote};
ghost use Rattle.player.specs.Instructions.{kind_of};
ghost use Rattle.code.specs.Need.{need_of};
ghost use Rattle.code.specs.Code.{operation};
ghost use Rattle.notes.specs.InnerNotes.{Noted, HasChildren, ChildrenInOrder};

// A node's children in the order of their code, by their entries, and whether the left one comes first.
#[derive(Clone, Copy)]
pub struct Children {
    pub first: usize,
    pub second: usize,
    pub left: bool,
}

impl Children {
    // The registers of the left child and of the right one, from those of the first and of the second.
    pub fn left_and_right(self, first: u16, second: u16) -> (u16, u16)
        ensures left { result.0 ≡ cond self.left first second }
        ensures right { result.1 ≡ cond self.left second first }
    {
        if self.left {
            (first, second)
        } else {
            (second, first)
        }
    }
}

// What is noted of a node: where its part begins, and what it needs.
#[derive(Clone, Copy)]
pub struct Note {
    pub start: u16,
    pub need: u8,
}

// What stands in an array before a tree's nodes are noted in it.
pub const NO_NOTE: Note = Note { start: 0, need: 0 };

// A tree's list, with a note of each of its nodes.
#[derive(Clone, Copy)]
pub struct NotedTree<'a> {
    pub tree: &'a [u16],
    pub notes: &'a [Note; tree::MOST_NODES],
    pub ghost is_tree: { is_some (tree_of tree.now) ≡ true },
    pub ghost noted: { Noted tree.now notes.now },
}

// The need of a node whose children need a and b.
fn need_of(a: u8, b: u8) -> u8
    requires { a < 255 }
    ensures { result ≡ need_of a b }
{
    if a == b { a + 1 } else { a.max(b) }
}

impl<'a> NotedTree<'a> {
    // Notes each node of a tree, in an array that is lent: one that is returned is copied, and then a small tree's code took two thirds longer.
    pub fn new(tree: &'a [u16], notes: &'a mut [Note; tree::MOST_NODES]) -> NotedTree<'a>
        requires { is_some (tree_of tree.now) ≡ true }
        ensures { result.tree.now ≡ tree.now }
    {
        for (i, x) in tree.iter().enumerate() {
            notes[i] = if *x < tree::UNION {
                Note {
                    start: i as u16,
                    need: 1,
                }
            } else {
                let left = usize::from(notes[i - 1].start) - 1;
                Note {
                    start: notes[left].start,
                    need: need_of(notes[left].need, notes[i - 1].need),
                }
            };
        }
        NotedTree { tree, notes }
    }
}

// The children of the node at `end`, by any notes that say where they are.
pub fn children_of(notes: &[Note; tree::MOST_NODES], end: usize) -> Children
    requires { HasChildren notes.now end }
    ensures { ChildrenInOrder notes.now end result.first result.second result.left }
{
    let right = end - 1;
    let left = usize::from(notes[right].start) - 1;
    if notes[right].need <= notes[left].need {
        Children {
            first: left,
            second: right,
            left: true,
        }
    } else {
        Children {
            first: right,
            second: left,
            left: false,
        }
    }
}

// Writes an instruction's four numbers from index `at` on, and returns the index after them. With `copy_from_slice` in place of the four
// stores the older player's code took a fifteenth longer.
pub fn put(out: &mut [u16], at: usize, four: [u16; 4]) -> usize
    requires { at + 4 ≤ length out.old }
    ensures { Wrote out.old at out.new result four }
{
    out[at] = four[0];
    out[at + 1] = four[1];
    out[at + 2] = four[2];
    out[at + 3] = four[3];
    at + 4
}

// The kind of an operator's instruction.
pub fn kind_of(x: u16) -> u16
    ensures { (o : Operator) → x ≡ sign o → result ≡ kind_of (operation o) }
{
    match x {
        tree::UNION => player::ADD,
        tree::DIFFERENCE => player::CUT,
        _ => player::BOTH,
    }
}
