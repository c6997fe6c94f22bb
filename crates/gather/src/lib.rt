// Gathering: a tree with the marked groups under one node, or the proof that no tree has them so.
#![tactic(auto)]

ghost use Rattle.std.specs.Prelude.{◌≡◌, true, ◌||◌, ℕ, ◌≤◌, eqb, length, take, MatchResult};
ghost use Rattle.std.proofs.Math.Option.{some};
ghost use Rattle.common.specs.Exactly.{Exactly};
ghost use Rattle.tree.specs.Tree.{Tree, postfix, is_in, most_nodes};
ghost use Rattle.tree.specs.Parse.{tree_of};
ghost use Rattle.tree.specs.InnerWriting.{Wrote};
ghost use Rattle.table.specs.InnerTable.{rows_of, Listed};
ghost use Rattle.columns.specs.Inner.{Room, ReadyFor};
ghost use Rattle.gather.specs.Gathering.{Gathered};
ghost use Rattle.gather.specs.Inner.{tree_list, Ordered, Built, GatheredList};
ghost use Rattle.gather.specs.Answer.{refusal_number, bad_mark, gather_fault, GathersTree, Gathers};
ghost use Rattle.gather.specs.InnerGathered.{tree_by, rearranged, gathered_by, Returns, GathersBy};

use columns::{Choice, build_columns, build_constant, choose};
use free_tables::power;
use holding::holding;
use table::ROWS;

// Why nothing is gathered.
#[derive(Clone, Copy, Debug, PartialEq, Eq)]
pub enum Refusal {
    // The buffer has no room for 8,191 numbers.
    ShortBuffer,
    // The list is no tree.
    NotATree,
    // More than eight different groups.
    TooManyGroups,
    // No mark, a mark twice, or one that is not in the tree.
    BadMarks,
    // No tree, of any size and over any groups, is equivalent and gathered.
    CannotBeGathered,
}

// 01's numbers.
impl From<Refusal> for u16 {
    ghost from_gives = { λ refusal n. n ≡ refusal_number refusal };

    fn from(refusal: Refusal) -> u16 {
        match refusal {
            Refusal::ShortBuffer => 11,
            Refusal::NotATree => 12,
            Refusal::TooManyGroups => 17,
            Refusal::BadMarks => 18,
            Refusal::CannotBeGathered => 19,
        }
    }
}

// The tree that was written: its nodes and the holder's position.
#[derive(Clone, Copy)]
pub struct GatheredTree {
    pub nodes: usize,
    pub holder: usize,
}

// ---- the marks and the first fault

// Whether there is no mark, a mark twice, or one that is not among the groups.
fn bad_marks(groups: &[u16], marks: &[u16]) -> bool
    ensures { result ≡ (eqb (length marks.now) 0 || bad_mark groups.now marks.now) }
{
    if marks.is_empty() {
        return true;
    }
    for (i, x) in marks.iter().enumerate() {
        if tree::is_in(&marks[i + 1..], *x) || !tree::is_in(groups, *x) {
            return true;
        }
    }
    false
}

// The first fault, for a buffer of `room` numbers.
fn fault_of(list: &[u16], marks: &[u16], room: usize) -> Result<(), Refusal>
    ensures { MatchResult result (λ _. gather_fault list.now marks.now room ≡ 0) (λ refusal. refusal_number refusal ≡ gather_fault list.now marks.now room) }
{
    if room < tree::MOST_NODES {
        return Err(Refusal::ShortBuffer);
    }
    if !tree::is_tree(list) {
        return Err(Refusal::NotATree);
    }
    let groups = tree::groups_of(list).ok_or(Refusal::TooManyGroups)?;
    if bad_marks(groups.as_slice(), marks) {
        return Err(Refusal::BadMarks);
    }
    Ok(())
}

// ---- a tree that is gathered already

// Whether a list is a tree that is gathered for the marks.
pub fn is_gathered(list: &[u16], marks: &[u16]) -> bool
    ensures { Exactly (result ≡ true) (GatheredList list.now marks.now) }
{
    tree::is_tree(list) && holding(list, marks).holder().is_some()
}

// ---- the whole

// Writes the tree for a choice, and returns its nodes, where there is one.
fn build(
    t: &[bool; ROWS],
    choice: Option<Choice>,
    marks: &[u16],
    others: &[u16],
    out: &mut [u16],
) -> Option<usize>
    requires room { Room marks.now others.now (length out.old) }
    requires ready_for { ReadyFor (rows_of t.now) marks.now others.now choice }
    ensures { Built choice out.old out.new (tree_list t.now marks.now others.now choice) result }
{
    match choice {
        None => None,
        Some(Choice::Constant) => Some(build_constant(t, marks, others, out)),
        Some(Choice::Columns { low, high, start }) => Some(build_columns(
            t,
            marks,
            others,
            low + high,
            start,
            out,
        )),
    }
}

// Gathers a tree that is not gathered and whose groups are listed, the m marked ones first.
fn gather_ordered(
    list: &[u16],
    groups: &[u16],
    m: usize,
    out: &mut [u16],
) -> Result<GatheredTree, Refusal>
    requires listed { Listed list.now }
    requires ordered { Ordered list.now groups.now m }
    requires most_nodes_in_bounds { most_nodes ≤ length out.old }
    ensures gathers_tree { (t : Tree) → list.now ≡ postfix t → GathersTree t (take m groups.now) out.old out.new result }
    ensures by { Returns list.now (take m groups.now) (tree_by groups.now m) out.old out.new result }
{
    let t = table::table(list, groups);
    let w = power(m);
    let columns = power(groups.len() - m);
    let choice = choose(&t, w, w * columns);
    let built = build(&t, choice, &groups[..m], &groups[m..], out);
    let nodes = built.ok_or(Refusal::CannotBeGathered)?;
    // What is built is gathered.
    let holder = holding(&out[..nodes], &groups[..m]).holder().unwrap();
    Ok(GatheredTree { nodes, holder })
}

// Gathers a tree that is not gathered.
fn rearrange(list: &[u16], marks: &[u16], out: &mut [u16]) -> Result<GatheredTree, Refusal>
    requires out_value { gather_fault list.now marks.now (length out.old) ≡ 0 }
    requires fact { (t : Tree) (p : ℕ) → list.now ≡ postfix t → Gathered (is_in marks.now) t p → ⊥ }
    ensures gathers_tree { (t : Tree) → tree_of list.now ≡ some t → GathersTree t marks.now out.old out.new result }
    ensures by { Returns list.now marks.now (λ t. rearranged t marks.now) out.old out.new result }
{
    // The tree has at most eight groups, and the marks are among them: no fault was found.
    let first = tree::groups_of(marks).unwrap();
    let all = tree::add_groups(first, list).unwrap();
    gather_ordered(list, all.as_slice(), marks.len(), out)
}

// Gathers a tree and marks that have no fault: unchanged if it is gathered.
fn gather_tree(list: &[u16], marks: &[u16], out: &mut [u16]) -> Result<GatheredTree, Refusal>
    requires { gather_fault list.now marks.now (length out.old) ≡ 0 }
    ensures gathers_tree { (t : Tree) → tree_of list.now ≡ some t → GathersTree t marks.now out.old out.new result }
    ensures by { Returns list.now marks.now (λ t. gathered_by t marks.now) out.old out.new result }
{
    match holding(list, marks).holder() {
        None => rearrange(list, marks, out),
        Some(holder) => {
            let nodes = tree::copy(list, out, 0);
            Ok(GatheredTree { nodes, holder })
        }
    }
}

// Document 01, "The gathering": the tree with the marked groups under one node, written into `out`; otherwise what is at fault, or
// that no tree of any size and over any groups is equivalent and gathered.
pub fn gather(tree: &[u16], marks: &[u16], out: &mut [u16]) -> Result<GatheredTree, Refusal>
    ensures gathers { Gathers tree.now marks.now out.old out.new result }
    ensures by { GathersBy tree.now marks.now out.old out.new result }
{
    fault_of(tree, marks, out.len())?;
    gather_tree(tree, marks, out)
}
