// The key of a sheet: its lifts in order, its marked groups gathered, its code, printed.
#![tactic(auto)]

ghost use Rattle.std.specs.Prelude.{◌+◌, ◌≤◌, length, take};
ghost use Rattle.tree.specs.Tree.{most_nodes};
ghost use Rattle.tree.specs.InnerWriting.{Wrote};
ghost use Rattle.moves.specs.Moves.{MoveTable, ours};
ghost use Rattle.moves.specs.InnerEntries.{TableIs, SomeTable};
ghost use Rattle.sheet.specs.Reading.{ReadingState, accepted, reading};
ghost use Rattle.move_table.specs.Loading.{loading};
ghost use Rattle.key.specs.Call.{key_bytes, KeyOf, KeyWith, KeyCall};
ghost use Rattle.key.specs.InnerKeyOf.{key_of, school_key_of, KeyBy};
ghost use Rattle.key.specs.Inner.{code_bytes, EncodesFor, code_lines, MarkedTree, PutsHeld, ReadAs, WroteKey, PutsBeforeCode};

use moves::{OUR_OWN, TableWords};

// As many bytes as every key fits in.
pub const KEY_BYTES: usize = 274699;

// A device's code of a tree.
fn encode_for(
    tree: &[u16],
    out: &mut [u16],
    device: printing::Device,
) -> Result<usize, coder::Refusal>
    ensures { EncodesFor device tree.now out.old result out.new }
{
    match device {
        printing::Device::Newer => coder::encode(tree, out),
        printing::Device::Older => older_coder::encode(tree, out),
    }
}

// Writes the code of the tree that a list is, nothing for a list that is no tree.
fn put_tree_code(tree: &[u16], out: &mut [u8], at: usize, device: printing::Device) -> usize
    requires { at + code_bytes ≤ length out.old }
    ensures { Wrote out.old at out.new result (code_lines device tree.now) }
{
    let mut code = [0u16; older_coder::LEAST_BUFFER];
    let Ok(count) = encode_for(tree, &mut code, device) else {
        return at;
    };
    printing::put_code(device, &code[..4 * count], out, at)
}

// Writes the code that is left to write: of the first `nodes` entries, if there are any.
fn finish(
    tree: &[u16],
    left: lift_lines::Progress,
    out: &mut [u8],
    device: printing::Device,
) -> usize
    requires { (left.nodes ≤ length tree.now) × (left.next + code_bytes ≤ length out.old) }
    ensures { Wrote out.old left.next out.new result (code_lines device (take left.nodes tree.now)) }
{
    let nodes = left.nodes;
    if nodes == 0 {
        return left.next;
    }
    put_tree_code(&tree[..nodes], out, left.next, device)
}

// Gathers the marked groups, if there are any, in the tree that the first `nodes` entries are, and writes the HELD line. Leaves the tree of
// which the code follows, no entries where none does.
fn put_held(
    tree: &mut [u16],
    nodes: usize,
    marks: &[u16],
    out: &mut [u8],
    at: usize,
) -> lift_lines::Progress
    requires { MarkedTree tree.old nodes marks.now out.old at }
    ensures { PutsHeld tree.old nodes marks.now out.old at tree.new out.new result }
{
    if marks.is_empty() {
        return lift_lines::Progress { nodes, next: at };
    }
    let mut gathered = [0u16; tree::MOST_NODES];
    match gather::gather(&tree[..nodes], marks, &mut gathered) {
        Err(refusal) => {
            let next = text::put_line(b"HELD", &[u16::from(refusal) as usize], out, at);
            lift_lines::Progress { nodes: 0, next }
        }
        Ok(done) => {
            let list = &gathered[..done.nodes];
            let run = coder::run_of(list, done.holder);
            let next = text::put_line(b"HELD", &[0, run.first, run.count], out, at);
            tree::copy(list, tree, 0);
            lift_lines::Progress {
                nodes: done.nodes,
                next,
            }
        }
    }
}

// The same for a sheet that reading accepts, after its lifts, by a table's words, without any by ours.
fn answer_sheet(
    sheet: &[u8],
    read: sheet::Sheet,
    tree: &mut [u16],
    out: &mut [u8],
    table: TableWords,
) -> lift_lines::Progress
    requires { ((st : ReadingState) × ReadAs sheet.now read st) × (most_nodes ≤ length tree.old) × (key_bytes ≤ length out.old)
        × SomeTable table.signs.now table.lengths.now }
    ensures { (m : MoveTable) → TableIs m table.entry.signs.now table.entry.lengths.now → (st : ReadingState) → ReadAs sheet.now read st
        → PutsBeforeCode (λ d. WroteKey d m (accepted st) out.old) tree.new out.new result }
{
    let entries = read.tree;
    let nodes = read.nodes;
    tree::copy(&entries[..nodes], tree, 0);
    let done = lift_lines::lift_all(sheet, read.start, read.lifts, tree, nodes, out, table);
    let marks = read.marks;
    let marked = read.marked;
    put_held(tree, done.nodes, &marks[..marked], out, done.next)
}

// Writes of the key of a sheet of any bytes by that table what stands before the code.
fn put_before_code(
    sheet: &[u8],
    tree: &mut [u16],
    out: &mut [u8],
    table: TableWords,
) -> lift_lines::Progress
    requires { (most_nodes ≤ length tree.old) × (key_bytes ≤ length out.old) × SomeTable table.signs.now table.lengths.now }
    ensures { (m : MoveTable) → TableIs m table.entry.signs.now table.entry.lengths.now
        → PutsBeforeCode (λ d. WroteKey d m (reading sheet.now) out.old) tree.new out.new result }
{
    match sheet::read(sheet) {
        Ok(read) => answer_sheet(sheet, read, tree, out, table),
        Err(refusal) => {
            let number = u8::from(refusal.fault);
            let next = text::put_line(b"NO", &[usize::from(number), refusal.line], out, 0);
            lift_lines::Progress { nodes: 0, next }
        }
    }
}

// The buffer is too short for some key.
#[derive(Clone, Copy, Debug, PartialEq, Eq)]
pub struct ShortBuffer;

// Writes the key of a sheet of any bytes into `out`, by our own table, and returns how many bytes it has.
pub fn key(sheet: &[u8], out: &mut [u8], device: printing::Device) -> Result<usize, ShortBuffer>
    ensures key_call { KeyCall device (KeyOf device ours (reading sheet.now)) out.old result out.new }
    ensures by { KeyBy (key_of device sheet.now) out.old result out.new }
{
    if out.len() < KEY_BYTES {
        return Err(ShortBuffer);
    }
    let mut tree = [0u16; tree::MOST_NODES];
    let left = put_before_code(sheet, &mut tree, out, OUR_OWN);
    let next = finish(&tree, left, out, device);
    Ok(next)
}

// The same by a school's table of any bytes: where it is refused, the key is its `NO` line, and the sheet is not read.
pub fn key_with(
    sheet: &[u8],
    table: &[u8],
    out: &mut [u8],
    device: printing::Device,
) -> Result<usize, ShortBuffer>
    ensures key_call { KeyCall device (KeyWith device (loading table.now) (reading sheet.now)) out.old result out.new }
    ensures by { KeyBy (school_key_of device table.now sheet.now) out.old result out.new }
{
    if out.len() < KEY_BYTES {
        return Err(ShortBuffer);
    }
    let school = match move_table::load(table) {
        Ok(school) => school,
        Err(refusal) => {
            let number = u16::from(refusal.fault);
            let next = text::put_line(b"NO", &[usize::from(number), refusal.line], out, 0);
            return Ok(next);
        }
    };
    let mut tree = [0u16; tree::MOST_NODES];
    let words = TableWords {
        signs: &school.signs,
        lengths: &school.lengths,
    };
    let left = put_before_code(sheet, &mut tree, out, words);
    let next = finish(&tree, left, out, device);
    Ok(next)
}
