// The coder for the older player: the same trees in the same order of nodes, other instructions.
//
// Where no operand waits is a number: bit r is 1 if none waits in register r.
#![tactic(auto)]

ghost use Rattle.std.specs.Prelude.{◌≡◌, false, [], ◌∷◌, ◌+◌, ◌≤◌, ◌<◌, length, get_or};
ghost use Rattle.tree.specs.Tree.{Tree, most_nodes};
ghost use Rattle.tree.specs.InnerWriting.{Wrote};
ghost use Rattle.player.specs.Limits.{register_count};
ghost use Rattle.player.specs.Instructions.{load_kind};
ghost use Rattle.code.specs.Waiting.{lowest, also_in};
ghost use Rattle.notes.specs.InnerNotes.{NodeAt, note_at};
ghost use Rattle.older_coder.specs.Coding.{Encodes};
ghost use Rattle.older_coder.specs.InnerWriter.{waiting_in, behind, Writable, WrotePart};

use notes::{NO_NOTE, NotedTree};

// Four numbers for each of 8,192 instructions.
pub const LEAST_BUFFER: usize = 32768;

// No operand waits in any of the 13 registers.
const ALL_FREE: u32 = 8191;

// The lowest register where no operand waits.
fn lowest(free: u32) -> u16
    requires { lowest (waiting_in free) < register_count }
    ensures { result ≡ lowest (waiting_in free) }
{
    free.trailing_zeros() as u16
}

// Where no operand waits once one waits in register r too.
fn also_in(free: u32, r: u16) -> u32
    requires { (r < register_count) × (get_or (waiting_in free) r false ≡ false) }
    ensures { waiting_in result ≡ also_in (waiting_in free) r }
{
    free - (1u32 << r)
}

// The index behind the code of the node at `end`, where that begins at `at`.
fn behind(noted: &NotedTree<'_>, end: usize, at: usize) -> usize
    requires { (end < most_nodes) × ((note_at noted.now.notes.now end).start ≤ end) × (behind noted.now.notes.now end at < 18446744073709551616) }
    ensures { result ≡ behind noted.now.notes.now end at }
{
    at + 4 * (end + 1 - usize::from(noted.notes[end].start))
}

// Writes the code of a leaf from index `at` on, while no operand waits where `free` says, and returns its register.
fn write_leaf(group: u16, free: u32, out: &mut [u16], at: usize) -> u16
    requires { (lowest (waiting_in free) < register_count) × (at + 4 ≤ length out.old) }
    ensures { (result ≡ lowest (waiting_in free)) × Wrote out.old at out.new (at + 4) (load_kind ∷ result ∷ group ∷ 0 ∷ []) }
{
    let register = lowest(free);
    notes::put(out, at, [player::LOAD, register, group, 0]);
    register
}

// Writes the code of the node at `end` from index `at` on, while no operand waits where `free` says, and returns the register where its
// result waits. A leaf that comes second takes no call of its own; one comes first only before another leaf. This is no twin of the other
// coder's: that one is told the register, and returns where its code ends.
fn write_node(noted: &NotedTree<'_>, end: usize, free: u32, out: &mut [u16], at: usize) -> u16
    requires { Writable noted.now.tree.now end (waiting_in free) out.old at }
    ensures { (a : Tree) → NodeAt noted.now.tree.now end a → WrotePart out.old at out.new result (waiting_in free) a }
{
    let x = noted.tree[end];
    if x < tree::UNION {
        return write_leaf(x, free, out, at);
    }
    let c = notes::children_of(noted.notes, end);
    let one = write_node(noted, c.first, free, out, at);
    let next = behind(noted, c.first, at);
    let rest = also_in(free, one);
    let y = noted.tree[c.second];
    let two = if y < tree::UNION {
        write_leaf(y, rest, out, next)
    } else {
        write_node(noted, c.second, rest, out, next)
    };
    let last = behind(noted, c.second, next);
    let (left, right) = c.left_and_right(one, two);
    notes::put(out, last, [notes::kind_of(x), left, right, 0]);
    left
}

// Writes the code of a tree for the older player into `out`, or refuses and writes nothing.
pub fn encode(tree: &[u16], out: &mut [u16]) -> Result<usize, coder::Refusal>
    ensures { Encodes tree.now out.old result out.new }
{
    coder::check(tree, out, LEAST_BUFFER)?;
    let mut notes = [NO_NOTE; tree::MOST_NODES];
    let noted = NotedTree::new(tree, &mut notes);
    let register = write_node(&noted, tree.len() - 1, ALL_FREE, out, 0);
    notes::put(out, 4 * tree.len(), [older_player::SHOW, register, 0, 0]);
    Ok(tree.len() + 1)
}
