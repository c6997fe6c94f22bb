// Postfix lists of trees: is a list a tree, which groups it has, where a part begins, and what is above it.
#![tactic(auto)]

ghost use Rattle.std.specs.Prelude.{MatchOption, ◌≡◌, List, [], ◌∷◌, reverse, ℕ, ◌+◌, ◌≤◌, ◌<◌, length, take, drop};
ghost use Rattle.tree.specs.Tree.{Operator, sign, Tree, is_group, is_in, collect};
ghost use Rattle.tree.specs.Context.{Frame};
ghost use Rattle.tree.specs.Pass.{entry_of};
ghost use Rattle.tree.specs.Parse.{tree_of, is_some};
ghost use Rattle.tree.specs.InnerPart.{Part, Located, side_of, kind_of, above_of};
ghost use Rattle.tree.specs.InnerScan.{entry_kind, onward, backward};
ghost use Rattle.tree.specs.InnerWriting.{Wrote};
ghost use Rattle.tree.specs.InnerGroups.{leaves_in, Collected};

mod group_list;

pub use group_list::Groups;

// 01's numbers; the last group is 02's, request 4, and the third operator, request 6.
pub const LEAST_GROUP: u16 = 1;

pub const MOST_GROUP: u16 = 60000;

pub const UNION: u16 = 65001;

pub const DIFFERENCE: u16 = 65002;

pub const INTERSECTION: u16 = 65003;

pub const MOST_NODES: usize = 8191;

// The different groups that a sheet's tree may have, and a tree to be gathered.
pub const MOST_GROUPS: usize = 8;

// Whether a number is a group.
pub fn is_group(x: u16) -> bool
    ensures { result ≡ is_group x }
{
    (LEAST_GROUP..=MOST_GROUP).contains(&x)
}

// Whether a number stands in a list.
#[tactic(auto, using(crate::proofs::GroupLaws::is_in_any))]
pub fn is_in(list: &[u16], x: u16) -> bool
    ensures { result ≡ is_in list.now x }
{
    list.contains(&x)
}

// Adds the groups of a list, each where it is not there yet, in their order; none where they are more than eight.
pub fn add_groups(known: Groups, list: &[u16]) -> Option<Groups>
    ensures { Collected (collect (take known.count known.list) (leaves_in list.now)) result }
{
    let mut found = known;
    for x in list {
        if *x < UNION && !is_in(found.as_slice(), *x) {
            if found.count == MOST_GROUPS {
                return None;
            }
            found.list[found.count] = *x;
            found.count += 1;
        }
    }
    Some(found)
}

// The different groups of a list, in their order; none where they are more than eight.
pub fn groups_of(list: &[u16]) -> Option<Groups>
    ensures { Collected (collect [] (leaves_in list.now)) result }
{
    let nothing = Groups {
        list: [0; MOST_GROUPS],
        count: 0,
    };
    add_groups(nothing, list)
}

// What a number of a list may be.
#[derive(Clone, Copy, Debug, PartialEq, Eq)]
enum EntryKind {
    Group,
    Operator,
    Neither,
}

// What this number is.
#[tactic(auto, using(crate::proofs::ParseLaws::kinds))]
fn entry_kind(x: u16) -> EntryKind
    ensures { result ≡ entry_kind (entry_of x) }
{
    if is_group(x) {
        return EntryKind::Group;
    }
    match x {
        UNION | DIFFERENCE | INTERSECTION => EntryKind::Operator,
        _ => EntryKind::Neither,
    }
}

// Whether a list is a tree of 1 to 8,191 nodes: one pass that counts the trees that wait.
#[tactic(auto, using(crate::proofs::ParseLaws::formed_turns))]
pub fn is_tree(list: &[u16]) -> bool
    ensures { result ≡ is_some (tree_of list.now) }
{
    if MOST_NODES < list.len() {
        return false;
    }
    let mut waiting: usize = 0;
    for x in list {
        match entry_kind(*x) {
            EntryKind::Group => waiting += 1,
            EntryKind::Operator if 2 <= waiting => waiting -= 1,
            _ => return false,
        }
    }
    waiting == 1
}

// The index of the operator that takes the part that ends before `to`, if there is one.
#[tactic(auto, using(crate::proofs::ScanLaws::onward_turns))]
fn scan_onward(list: &[u16], to: usize) -> Option<usize>
    requires { to ≤ length list.now }
    ensures { let p = to + onward 0 (drop to list.now) in MatchOption result (length list.now ≤ p) (λ i. (i ≡ p) × (i < length list.now)) }
{
    let mut operands: usize = 1;
    for i in to..list.len() {
        operands = if UNION <= list[i] {
            operands - 1
        } else {
            operands + 1
        };
        if operands <= 1 {
            return Some(i);
        }
    }
    None
}

// The index at which the part that ends before `to` begins, by a scan back over as many leaves as operators and one more.
#[tactic(auto, using(crate::proofs::ScanLaws::backward_turns))]
fn scan_backward(list: &[u16], to: usize) -> usize
    requires { to ≤ length list.now }
    ensures { result ≡ backward 1 (reverse (take to list.now)) }
{
    let mut operands: usize = 1;
    for i in (0..to).rev() {
        operands = if UNION <= list[i] {
            operands + 1
        } else {
            operands - 1
        };
        if operands == 0 {
            return i;
        }
    }
    0
}

// Where the part begins that ends before `to`.
pub fn part_start(list: &[u16], to: usize) -> usize
    requires { to ≤ length list.now }
    ensures { (from : ℕ) (a : Tree) (c : List Frame) → Part list.now from to a c → result ≡ from }
{
    scan_backward(list, to)
}

// A stretch of a list: the entries from `from` up to, not including, `to`.
#[derive(Clone, Copy)]
pub struct Stretch {
    pub from: usize,
    pub to: usize,
}

// Which operand a part is of a union or a difference. In this order they are the inputs a, b, c and d.
#[derive(Clone, Copy, Debug, PartialEq, Eq)]
pub enum Operand {
    LeftOfUnion,
    LeftOfDifference,
    RightOfUnion,
    RightOfDifference,
}

// What is above a part that is not the root: which operand of the operator that takes it the part is, none where that is an intersection; the
// stretches of the part's sibling and of its parent's part.
#[derive(Clone, Copy)]
pub struct Above {
    pub operand: Option<Operand>,
    pub sibling: Stretch,
    pub parent: Stretch,
}

// Which operand of an operator a part is that stands on this side of it.
pub fn operand_of(operator: u16, on_right: bool) -> Option<Operand>
    ensures { (o : Operator) → operator ≡ sign o → result ≡ kind_of (side_of on_right) o }
{
    match (operator, on_right) {
        (UNION, false) => Some(Operand::LeftOfUnion),
        (DIFFERENCE, false) => Some(Operand::LeftOfDifference),
        (UNION, true) => Some(Operand::RightOfUnion),
        (DIFFERENCE, true) => Some(Operand::RightOfDifference),
        _ => None,
    }
}

// What is above a part, if it is not the root. It passes over the sibling only.
pub fn above_part(list: &[u16], part: Stretch) -> Option<Above>
    requires { Located list.now part.from part.to }
    ensures { (a : Tree) (c : List Frame) → Part list.now part.from part.to a c → result ≡ above_of part c }
{
    let place = scan_onward(list, part.to)?;
    let to = place + 1;
    let operator = list[place];
    if place == part.to {
        let from = scan_backward(list, part.from);
        return Some(Above {
            operand: operand_of(operator, true),
            sibling: Stretch {
                from,
                to: part.from,
            },
            parent: Stretch { from, to },
        });
    }
    Some(Above {
        operand: operand_of(operator, false),
        sibling: Stretch {
            from: part.to,
            to: place,
        },
        parent: Stretch {
            from: part.from,
            to,
        },
    })
}

// Copies all of `source` into `out` from index `at` on, and returns the index after it.
pub fn copy<T: Copy>(source: &[T], out: &mut [T], at: usize) -> usize
    requires { at + length source.now ≤ length out.old }
    ensures { Wrote out.old at out.new result source.now }
{
    for (i, x) in source.iter().enumerate() {
        out[at + i] = *x;
    }
    at + source.len()
}

// Writes one value into `out` at index `at`, and returns the index after it.
pub fn write_one<T: Copy>(x: T, out: &mut [T], at: usize) -> usize
    requires { at < length out.old }
    ensures { Wrote out.old at out.new result (x ∷ []) }
{
    out[at] = x;
    at + 1
}
