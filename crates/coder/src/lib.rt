// The coder: from a tree to instructions that thirteen registers can run.
#![tactic(auto)]

ghost use Rattle.std.specs.Prelude.{◌≡◌, true, [], ◌<◌, ◌≤◌, length, MatchResult};
ghost use Rattle.std.proofs.Math.Option.{some};
ghost use Rattle.tree.specs.Tree.{Tree};
ghost use Rattle.tree.specs.Parse.{tree_of, is_some, locate};
ghost use Rattle.tree.specs.InnerWriting.{Wrote};
ghost use Rattle.player.specs.Instructions.{numbers_of};
ghost use Rattle.notes.specs.InnerNotes.{NodeAt, HasChildren};
ghost use Rattle.coder.specs.InnerNotes.{StepsDown, Writable};
ghost use Rattle.code.specs.Code.{code as code_of};
ghost use Rattle.code.specs.Runs.{run_first};
ghost use Rattle.coder.specs.Coding.{refusal_number, encode_fault, Encodes, run_of};

use notes::{NO_NOTE, NotedTree};

// Four numbers for each of 8,191 instructions.
pub const LEAST_BUFFER: usize = 32764;

// Why a tree is not coded.
#[derive(Clone, Copy, Debug, PartialEq, Eq)]
pub enum Refusal {
    // Its buffer is shorter than the longest code.
    ShortBuffer,
    NotATree,
}

// 01's number of a refusal.
impl From<Refusal> for u16 {
    ghost from_gives = { λ refusal n. n ≡ refusal_number refusal };

    fn from(refusal: Refusal) -> u16 {
        match refusal {
            Refusal::ShortBuffer => 20,
            Refusal::NotATree => 12,
        }
    }
}

// A node's run in the code of its tree: its first instruction, counted from 1, and how many there are. Where there is no such node both
// are 0, and no Option: `run_of` could not fail, and still can't.
#[derive(Clone, Copy)]
pub struct Run {
    pub first: usize,
    pub count: usize,
}

// A child's entry, and how many instructions stand before its own in the code of its parent.
#[derive(Clone, Copy)]
struct Below {
    end: usize,
    before: usize,
}

// Writes the code of the node at `end` from index `at` on, and returns the index after it. A leaf that comes second takes no call of its
// own; one comes first only before another leaf.
fn write_node(noted: &NotedTree<'_>, end: usize, target: u16, out: &mut [u16], at: usize) -> usize
    requires { Writable noted.now.tree.now end target out.old at }
    ensures { (a : Tree) → NodeAt noted.now.tree.now end a → Wrote out.old at out.new result (numbers_of (code_of a target)) }
{
    let x = noted.tree[end];
    if x < tree::UNION {
        return notes::put(out, at, [player::LOAD, target, x, 0]);
    }
    let c = notes::children_of(noted.notes, end);
    let other = target + 1;
    let next = write_node(noted, c.first, target, out, at);
    let y = noted.tree[c.second];
    let last = if y < tree::UNION {
        notes::put(out, next, [player::LOAD, other, y, 0])
    } else {
        write_node(noted, c.second, other, out, next)
    };
    let (s, t) = c.left_and_right(target, other);
    notes::put(out, last, [notes::kind_of(x), target, s, t])
}

// Refuses a list that is no tree, and before it a buffer of fewer numbers than a device's longest code.
pub fn check(tree: &[u16], out: &[u16], least: usize) -> Result<(), Refusal>
    ensures { MatchResult result (λ _. (least ≤ length out.now) × (is_some (tree_of tree.now) ≡ true))
        (λ refusal. encode_fault least tree.now out.now ≡ refusal_number refusal) }
{
    if out.len() < least {
        return Err(Refusal::ShortBuffer);
    }
    if !tree::is_tree(tree) {
        return Err(Refusal::NotATree);
    }
    Ok(())
}

// Writes the code of a tree into `out`, or refuses and writes nothing.
pub fn encode(tree: &[u16], out: &mut [u16]) -> Result<usize, Refusal>
    ensures { Encodes tree.now out.old result out.new }
{
    check(tree, out, LEAST_BUFFER)?;
    let mut notes = [NO_NOTE; tree::MOST_NODES];
    let noted = NotedTree::new(tree, &mut notes);
    write_node(&noted, tree.len() - 1, 0, out, 0);
    Ok(tree.len())
}

// From the node at `end` to its child that has the node at `position` in its part.
fn step_down(noted: &NotedTree<'_>, end: usize, position: usize) -> Below
    requires { HasChildren noted.now.notes.now end }
    ensures { StepsDown noted.now.notes.now end position result.end result.before }
{
    let notes = noted.notes;
    let right = notes[end - 1];
    let middle = usize::from(right.start);
    let left = notes[middle - 1];
    let left_first = right.need <= left.need;
    if position < middle {
        let before = if left_first { 0 } else { end - middle };
        Below {
            end: middle - 1,
            before,
        }
    } else {
        let before = if left_first {
            middle - usize::from(left.start)
        } else {
            0
        };
        Below {
            end: end - 1,
            before,
        }
    }
}

// The number of the first instruction of the node at `position`, counted from 1, in the code of the whole tree. The loop goes down the
// tree, from a node to its child, and counts no index.
fn first_of(noted: &NotedTree<'_>, position: usize) -> usize
    requires { position < length noted.now.tree.now }
    ensures { (t : Tree) → tree_of noted.now.tree.now ≡ some t
        → result ≡ run_first (locate t [] position).part (locate t [] position).above }
{
    let mut end = noted.tree.len() - 1;
    let mut first = 1;
    while position < end {
        let b = step_down(noted, end, position);
        first += b.before;
        end = b.end;
    }
    first
}

// The run of the node at `position` in the code of the whole tree: 0 and 0 where the list is no tree or has no such node.
pub fn run_of(tree: &[u16], position: usize) -> Run
    ensures { result ≡ run_of (tree_of tree.now) position }
{
    if tree.len() <= position || !tree::is_tree(tree) {
        return Run { first: 0, count: 0 };
    }
    let mut notes = [NO_NOTE; tree::MOST_NODES];
    let noted = NotedTree::new(tree, &mut notes);
    let start = usize::from(noted.notes[position].start);
    Run {
        first: first_of(&noted, position),
        count: position + 1 - start,
    }
}
