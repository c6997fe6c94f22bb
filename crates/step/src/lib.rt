// One step of a lift by Table 9: what the three frames above a node make of it, and the step carried out.
#![tactic(auto)]

ghost use Rattle.std.specs.Prelude.{◌≡◌, ◌⊎◌, List, ◌≤◌, ◌<◌, length};
ghost use Rattle.tree.specs.Tree.{Tree, most_nodes};
ghost use Rattle.tree.specs.Context.{Frame};
ghost use Rattle.tree.specs.InnerPart.{Part, Located};
ghost use Rattle.words.specs.Word.{most_signs};
ghost use Rattle.moves.specs.Moves.{MoveTable};
ghost use Rattle.moves.specs.InnerEntries.{AloneUpTo, TableIs, SomeTable};
ghost use Rattle.step.specs.InnerStanding.{StateIs, Standing, Stands};
ghost use Rattle.step.specs.InnerSteps.{ReplaceIs, Planned, Carries, CarriesSome, PlannedSome, StepIs};

use moves::{LAST_ALONE, TableWords};
use tree::Operand;
pub use tree::Stretch;
use words::MOST_SIGNS;

// A node of a tree's list: its part, and its state, if it has one. States are numbers, as the papers number them.
#[derive(Clone, Copy)]
pub struct Node {
    pub part: Stretch,
    pub state: Option<usize>,
}

// Why a step is refused.
#[derive(Clone, Copy, Debug, PartialEq, Eq)]
pub enum Refusal {
    // In states 5 to 9 there is no D: 15.
    NoStep,
    // The parent, the grandparent or the node above T is an intersection where it is needed: 27.
    ThroughIntersection,
    // The result passes 8,191 nodes: 16.
    TooLong,
}

// What a step replaces: the old stretch, T alone or T with D, by the move entry of this state and input over the node and these stretches
// of B, C and D.
#[derive(Clone, Copy)]
struct Plan {
    alone: bool,
    state: usize,
    input: Option<Operand>,
    b: Stretch,
    c: Stretch,
    d: Stretch,
    old: Stretch,
}

// What a step made: how many nodes the new tree has, and A in it.
#[derive(Clone, Copy)]
pub struct Stepped {
    pub nodes: usize,
    pub node: Node,
}

// What the step of a node is, by a table that replaces T alone in the states up to `last`. The frames above the node give B, C with T, and D
// with the input and the stretch of T with D. Where there is no D, our own entries are used.
fn plan_step(list: &[u16], node: Node, last: usize) -> Result<Plan, Refusal>
    requires { Stands list.now node }
    ensures { (m : MoveTable) → AloneUpTo m last → (a : Tree) (c : List Frame) → Standing list.now node a c
        → Planned m list.now node c result }
{
    let above_node = tree::above_part(list, node.part).ok_or(Refusal::NoStep)?;
    let above_parent = tree::above_part(list, above_node.parent).ok_or(Refusal::NoStep)?;
    let state = node.state.ok_or(Refusal::ThroughIntersection)?; // by the parent or the grandparent
    let without_d = Plan {
        alone: true,
        state,
        input: None,
        b: above_node.sibling,
        c: above_parent.sibling,
        d: above_parent.sibling,
        old: above_parent.parent,
    };
    let Some(above_t) = tree::above_part(list, above_parent.parent) else {
        if state <= LAST_ALONE {
            return Ok(without_d);
        }
        return Err(Refusal::NoStep);
    };
    let t_alone = Plan {
        input: above_t.operand,
        ..without_d
    };
    if state <= last {
        return Ok(t_alone);
    }
    let input = above_t.operand.ok_or(Refusal::ThroughIntersection)?; // by the node above T
    let t_with_d = Plan {
        alone: false,
        input: Some(input),
        d: above_t.sibling,
        old: above_t.parent,
        ..t_alone
    };
    Ok(t_with_d)
}

// Carries a plan out by the word of its entry. The node's next state is worked out from the word.
fn carry_out(
    list: &[u16],
    node: Node,
    plan: Plan,
    word: &[u8],
    out: &mut [u16],
) -> Result<Stepped, Refusal>
    requires carries_some { CarriesSome list.now node plan word.now }
    requires list_len_bound { (length list.now ≤ most_nodes) × (most_nodes ≤ length out.old) × (length word.now ≤ most_signs) }
    ensures { (m : MoveTable) (a : Tree) (k : List Frame) → Carries m list.now node a k plan word.now → StepIs m a k result out.new }
{
    let parts = [node.part, plan.b, plan.c, plan.d];
    let made = words::replace(list, parts, word, plan.old, out).ok_or(Refusal::TooLong)?;
    let part = Stretch {
        from: made.from,
        to: made.from + (node.part.to - node.part.from),
    };
    let state = moves::next_state(word, plan.alone, plan.input);
    Ok(Stepped {
        nodes: made.nodes,
        node: Node { part, state },
    })
}

// The same by the word of the table's entry: ours where T alone is replaced and where no table is given; else that of the table's row.
fn replace_by(
    list: &[u16],
    node: Node,
    plan: Plan,
    out: &mut [u16],
    table: TableWords,
) -> Result<Stepped, Refusal>
    requires planned_some { PlannedSome list.now node plan table.signs.now table.lengths.now }
    requires list_len_bound { (length list.now ≤ most_nodes) × (most_nodes ≤ length out.old) }
    ensures { (m : MoveTable) (a : Tree) (k : List Frame) → TableIs m table.entry.signs.now table.entry.lengths.now → Standing list.now node a k
        → ReplaceIs m list.now node k plan → StepIs m a k result out.new }
{
    if plan.alone | table.lengths.is_empty() {
        let entry = moves::move_word(plan.state, moves::column(plan.input));
        return carry_out(list, node, plan, &entry, out);
    }
    let place = 4 * (plan.state - 1) + moves::column(plan.input);
    let start = MOST_SIGNS * place;
    let row = &table.signs[start..start + usize::from(table.lengths[place])];
    carry_out(list, node, plan, row, out)
}

// The last state in which T alone is replaced, by a table of so many words: without any it is ours.
fn last_alone(words: usize) -> usize
    ensures { ((words ≡ 0) × (result ≡ 4)) ⊎ ((words ≡ 0 → ⊥) × (result ≡ 0)) }
{
    if words == 0 {
        return LAST_ALONE;
    }
    0
}

// One step of a lift, written to `out`, by a table's words; without any by ours. Kept out of its caller's loop: compiled into it,
// a lift by 4,094 levels took a seventh more instructions.
#[inline(never)]
pub fn step(
    list: &[u16],
    node: Node,
    out: &mut [u16],
    table: TableWords,
) -> Result<Stepped, Refusal>
    requires stands { Stands list.now node × SomeTable table.signs.now table.lengths.now }
    requires list_len_bound { (length list.now ≤ most_nodes) × (most_nodes ≤ length out.old) }
    ensures { (m : MoveTable) → TableIs m table.entry.signs.now table.entry.lengths.now → (a : Tree) (c : List Frame) → Standing list.now node a c
        → StepIs m a c result out.new }
{
    let plan = plan_step(list, node, last_alone(table.lengths.len()))?;
    replace_by(list, node, plan, out, table)
}

// The state of a part, worked out from the two frames above it, if it has one.
pub fn first_state(list: &[u16], part: Stretch) -> Option<usize>
    requires { Located list.now part.from part.to }
    ensures { (a : Tree) (c : List Frame) → Part list.now part.from part.to a c → StateIs c result }
{
    let above_node = tree::above_part(list, part)?;
    let above_parent = tree::above_part(list, above_node.parent)?;
    moves::state_of(above_node.operand, above_parent.operand)
}
