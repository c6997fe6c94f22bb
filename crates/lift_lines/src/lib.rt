// The lift lines of a sheet: each lift carried out in the tree that the one before it left, and its line written.
#![tactic(auto)]

ghost use Rattle.std.specs.Prelude.{List, ℕ, ◌*◌, ◌≤◌, length};
ghost use Rattle.moves.specs.InnerEntries.{SomeTable};
ghost use Rattle.sheet.specs.Reading.{LiftLine};
ghost use Rattle.lift_lines.specs.Inner.{lift_bytes, InArray, LiftRoom, LiftsOne, Asked, LiftsAll};

use moves::TableWords;

// How many entries the tree has in the array that the caller lends for it (no heap), and the index after what is written of the key.
#[derive(Clone, Copy)]
pub struct Progress {
    pub nodes: usize,
    pub next: usize,
}

// Carries out one lift in the tree that the first `nodes` entries are, by the table whose words' signs and lengths are given, without any by
// ours, and writes its line.
fn lift_one(
    tree: &mut [u16],
    nodes: usize,
    position: usize,
    levels: usize,
    out: &mut [u8],
    at: usize,
    table: TableWords,
) -> Progress
    requires in_array { InArray tree.old nodes }
    requires lift_room { LiftRoom position levels out.old at × SomeTable table.signs.now table.lengths.now }
    ensures { LiftsOne tree.old nodes position levels tree.new result out.old at out.new table.entry.signs.now table.entry.lengths.now }
{
    let mut new = [0u16; tree::MOST_NODES];
    match lift::lift_by(&tree[..nodes], position, levels, &mut new, table) {
        Ok(lifted) => {
            tree::copy(&new[..lifted.nodes], tree, 0);
            let next = text::put_line(b"LIFT", &[0, lifted.position, lifted.looks], out, at);
            Progress {
                nodes: lifted.nodes,
                next,
            }
        }
        Err(refusal) => {
            let number = u16::from(refusal);
            let next = text::put_line(b"LIFT", &[usize::from(number), position, 0], out, at);
            Progress { nodes, next }
        }
    }
}

// Carries out the lifts of the lines from the byte `start` on, by that table, and writes their lines.
pub fn lift_all(
    sheet: &[u8],
    start: usize,
    count: usize,
    tree: &mut [u16],
    nodes: usize,
    out: &mut [u8],
    table: TableWords,
) -> Progress
    requires in_array { InArray tree.old nodes }
    requires count_in_bounds { ((ls : List LiftLine) × Asked sheet.now start count ls) × (lift_bytes * count ≤ length out.old) }
    requires some_table { SomeTable table.signs.now table.lengths.now }
    ensures { LiftsAll sheet.now start count tree.old nodes tree.new result out.old out.new table.entry.signs.now table.entry.lengths.now }
{
    let mut at = start;
    let mut progress = Progress { nodes, next: 0 };
    for _ in 0..count {
        let here = sheet::line_at(sheet, at);
        // `Asked` says that each of these lines is a lift line.
        let Some(sheet::Line::Lift(position, levels)) = here.line else {
            unreachable!();
        };
        progress = lift_one(
            tree,
            progress.nodes,
            usize::from(position),
            usize::from(levels),
            out,
            progress.next,
            table,
        );
        at = here.next;
    }
    progress
}
