// Lifting a node of a tree by Tables 9 and 10, step by step, all or none.
#![tactic(auto)]

ghost use Rattle.std.specs.Prelude.{◌≡◌, List, ℕ, ◌+◌, ◌*◌, ◌≤◌, ◌<◌, length, take};
ghost use Rattle.tree.specs.Tree.{Tree, most_nodes};
ghost use Rattle.tree.specs.Context.{Frame};
ghost use Rattle.tree.specs.InnerPart.{Part};
ghost use Rattle.moves.specs.Moves.{MoveTable, ours};
ghost use Rattle.moves.specs.InnerEntries.{TableIs, SomeTable};
ghost use Rattle.step.specs.InnerStanding.{Stands};
ghost use Rattle.lift.specs.InnerLifts.{by_step, Ends, LiftsNode, LiftsPart};
ghost use Rattle.lift.specs.Lift.{lift_of};
ghost use Rattle.lift.specs.School.{lift_with};
ghost use Rattle.lift.specs.Answer.{refusal_number, Lifts};

use move_table::LoadedTable;
use moves::{OUR_OWN, TableWords};
use step::{Node, Stepped};
use tree::{MOST_NODES, Stretch, UNION};

// A lift that was done: how many nodes the new tree has, A's position and the looks.
#[derive(Clone, Copy)]
pub struct Lifted {
    pub nodes: usize,
    pub position: usize,
    pub looks: usize,
}

// Why a lift is refused.
#[derive(Clone, Copy, Debug, PartialEq, Eq)]
pub enum Refusal {
    ShortBuffer,
    NotATree,
    NoPosition,
    // No levels, or not fewer than the node's own level.
    BadLevels,
    // A step has no node to take up: in states 5 to 9 there is no D.
    NoStep,
    // A step's result is over the limit.
    TooLong,
    // A step needs an operator that is an intersection.
    ThroughIntersection,
    // The table is none that loading could have made.
    NotATable,
}

// 01's numbers of refusal; the last two are 02's, requests 6 and 7.
impl From<Refusal> for u16 {
    ghost from_gives = { λ refusal number. number ≡ refusal_number refusal };

    fn from(refusal: Refusal) -> u16 {
        match refusal {
            Refusal::ShortBuffer => 11,
            Refusal::NotATree => 12,
            Refusal::NoPosition => 13,
            Refusal::BadLevels => 14,
            Refusal::NoStep => 15,
            Refusal::TooLong => 16,
            Refusal::ThroughIntersection => 27,
            Refusal::NotATable => 29,
        }
    }
}

// A lift is refused with its step.
impl From<step::Refusal> for Refusal {
    ghost from_gives = { λ refusal lift. lift ≡ by_step refusal };

    fn from(refusal: step::Refusal) -> Refusal {
        match refusal {
            step::Refusal::NoStep => Refusal::NoStep,
            step::Refusal::ThroughIntersection => Refusal::ThroughIntersection,
            step::Refusal::TooLong => Refusal::TooLong,
        }
    }
}

// That many steps of a node of the tree in the first `nodes` entries of `x`, with the looks so far: a step counts 1. `y` is a second buffer;
// the two change places at each step. `out` is written once all steps are made.
fn run(
    x: &mut [u16],
    y: &mut [u16],
    nodes: usize,
    node: Node,
    levels: usize,
    looks: usize,
    out: &mut [u16],
    table: TableWords,
) -> Result<Lifted, Refusal>
    requires stands { Stands (take nodes x.old) node }
    requires nodes_le_most_nodes { (nodes ≤ most_nodes) × (most_nodes ≤ length x.old) }
    requires most_nodes_in_bounds { (most_nodes ≤ length y.old) × (most_nodes ≤ length out.old) }
    requires levels_bound { looks + most_nodes * levels ≤ most_nodes * most_nodes }
    requires some_table { SomeTable table.signs.now table.lengths.now }
    ensures { (m : MoveTable) → TableIs m table.entry.signs.now table.entry.lengths.now
        → LiftsNode m (take nodes x.old) node levels looks out.old result out.new }
{
    let (mut from, mut into) = (&mut *x, &mut *y);
    let mut made = Stepped { nodes, node };
    let mut left = levels;
    let mut looks = looks;
    loop {
        if left == 0 {
            tree::copy(&from[..made.nodes], out, 0);
            return Ok(Lifted {
                nodes: made.nodes,
                position: made.node.part.to - 1,
                looks,
            });
        }
        made = step::step(&from[..made.nodes], made.node, into, table)?;
        (from, into) = (into, from);
        left -= 1;
        looks += 1;
    }
}

// The level of the part that ends before `to`: how many operators take it, one after another.
fn level_of(list: &[u16], to: usize) -> usize
    requires { to ≤ length list.now }
    ensures by_index { (from : ℕ) (a : Tree) (c : List Frame) → Part list.now from to a c → result ≡ length c }
    ensures upper_bound { result ≤ length list.now }
{
    let mut level: usize = 0;
    let mut operands: usize = 0;
    for entry in &list[to..] {
        if *entry < UNION {
            operands += 1;
        } else if operands <= 1 {
            level += 1;
            operands = 0;
        } else {
            operands -= 1;
        }
    }
    level
}

// That many steps of the part that ends before `to`, in two buffers of its own.
fn lift_part(
    list: &[u16],
    to: usize,
    levels: usize,
    out: &mut [u16],
    table: TableWords,
) -> Result<Lifted, Refusal>
    requires ends { Ends list.now to }
    requires list_len_bound { (length list.now ≤ most_nodes) × (most_nodes ≤ length out.old) }
    requires levels_le_most_nodes { levels ≤ most_nodes }
    requires some_table { SomeTable table.signs.now table.lengths.now }
    ensures { (m : MoveTable) → TableIs m table.entry.signs.now table.entry.lengths.now
        → LiftsPart m list.now to levels out.old result out.new }
{
    let from = tree::part_start(list, to);
    let part = Stretch { from, to };
    let state = step::first_state(list, part);
    let mut x = [0u16; MOST_NODES];
    let mut y = [0u16; MOST_NODES];
    tree::copy(list, &mut x, 0);
    run(
        &mut x,
        &mut y,
        list.len(),
        Node { part, state },
        levels,
        0,
        out,
        table,
    )
}

// Lifts the node at a position of a tree by some levels, by a table's words, without any by ours, and writes
// the new tree into `out`. The table is not checked again.
pub fn lift_by(
    tree: &[u16],
    position: usize,
    levels: usize,
    out: &mut [u16],
    table: TableWords,
) -> Result<Lifted, Refusal>
    requires { SomeTable table.signs.now table.lengths.now }
    ensures { (m : MoveTable) → TableIs m table.entry.signs.now table.entry.lengths.now
        → Lifts (lift_of m (length out.old) tree.now position levels) out.old result out.new }
{
    if out.len() < MOST_NODES {
        return Err(Refusal::ShortBuffer);
    }
    if !tree::is_tree(tree) {
        return Err(Refusal::NotATree);
    }
    if tree.len() <= position {
        return Err(Refusal::NoPosition);
    }
    let to = position + 1;
    let level = level_of(tree, to);
    if (levels == 0) | (level <= levels) {
        return Err(Refusal::BadLevels);
    }
    lift_part(tree, to, levels, out, table)
}

// The same by our own table.
pub fn lift(
    tree: &[u16],
    position: usize,
    levels: usize,
    out: &mut [u16],
) -> Result<Lifted, Refusal>
    ensures { Lifts (lift_of ours (length out.old) tree.now position levels) out.old result out.new }
{
    lift_by(tree, position, levels, out, OUR_OWN)
}

// The same by a school's table. One that loading could not have made is refused before everything else.
pub fn lift_with(
    tree: &[u16],
    position: usize,
    levels: usize,
    out: &mut [u16],
    table: LoadedTable,
) -> Result<Lifted, Refusal>
    ensures { Lifts (lift_with table (length out.old) tree.now position levels) out.old result out.new }
{
    if !move_table::is_loaded(table) {
        return Err(Refusal::NotATable);
    }
    let words = TableWords {
        signs: &table.signs,
        lengths: &table.lengths,
    };
    lift_by(tree, position, levels, out, words)
}
