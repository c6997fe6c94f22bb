// The truth table of a tree over a list of groups.
#![tactic(auto)]

ghost use Rattle.std.specs.Prelude.{IfSome, ◌≡◌, List, ℕ, ◌≤◌, ◌<◌, length, get_or};
ghost use Rattle.tree.specs.Tree.{Operator, union, sign, Tree, most_nodes, postfix, apply};
ghost use Rattle.table.specs.InnerTable.{row_count, value_at, table, Listed, IsPlace, ArePlaces};

pub const ROWS: usize = 256;

// The bit after the last that a row has. It is 0 in every row, as a group that is not listed is in none: with an Option in its place
// each row would ask again.
const NO_PLACE: usize = tree::MOST_GROUPS;

// The bit of a row that says whether the group is in; for a group that is not listed, or after the eighth, a bit that no row has.
fn place(groups: &[u16], g: u16) -> u8
    ensures { IsPlace groups.now g result }
{
    let known = &groups[..groups.len().min(NO_PLACE)];
    known.iter().position(|x| *x == g).unwrap_or(NO_PLACE) as u8
}

// The places of the tree's leaves, entry by entry: looked up once, before the rows. (An operator's entry has one too, which nothing
// asks for.)
fn places(list: &[u16], groups: &[u16]) -> [u8; tree::MOST_NODES]
    requires { length list.now ≤ most_nodes }
    ensures { ArePlaces list.now groups.now result }
{
    let mut places = [0u8; tree::MOST_NODES];
    for (i, x) in list.iter().enumerate() {
        places[i] = place(groups, *x);
    }
    places
}

// What the operator x makes of its operands' values, without a branch: operators come in any order.
fn combine(x: u16, a: bool, b: bool) -> bool
    ensures { (o : Operator) → x ≡ sign o → result ≡ apply o a b }
{
    (a & (b == (x == tree::INTERSECTION))) | (b & (x == tree::UNION))
}

// The operator at an index of the list, if there is one.
fn operator_at(list: &[u16], i: usize) -> Option<u16>
    ensures { IfSome result (λ x. (i < length list.now) × (sign union ≤ x) × (x ≡ get_or list.now i 0)) }
{
    list.get(i).copied().filter(|x| tree::UNION <= *x)
}

// The tree's value at a row, from the row's bits. `value` is the latest operand's; the values of the operands that wait below it
// stand in `waiting`, from index 1 on, with their number beside it (no heap). A leaf that is a right operand never waits, so a turn
// takes one entry or two, and the index is counted by hand: a `for` in which each leaf waits was tried and is slower
// (docs/DECISIONS.md, Speed).
fn eval(list: &[u16], places: &[u8; tree::MOST_NODES], row: usize) -> bool
    requires { Listed list.now × (row < row_count) × ((groups : List ℕ) × ArePlaces list.now groups places.now) }
    ensures { (t : Tree) (groups : List ℕ) → list.now ≡ postfix t → ArePlaces list.now groups places.now
        → result ≡ value_at groups t row }
{
    let mut waiting = [false; tree::MOST_NODES];
    let mut top: usize = 0;
    let mut value = false;
    let mut i = 0;
    while i < list.len() {
        let x = list[i];
        if x < tree::UNION {
            let leaf = (row >> places[i]) % 2 == 1;
            if let Some(next) = operator_at(list, i + 1) {
                value = combine(next, value, leaf);
                i += 2;
            } else {
                waiting[top] = value;
                value = leaf;
                top += 1;
                i += 1;
            }
        } else {
            top -= 1;
            value = combine(x, waiting[top], value);
            i += 1;
        }
    }
    value
}

// The tree's truth table: "[false; 256] filled by evaluating the tree once for each row".
pub fn table(list: &[u16], groups: &[u16]) -> [bool; ROWS]
    requires { Listed list.now }
    ensures { (t : Tree) → list.now ≡ postfix t → result ≡ table groups.now t }
{
    let places = places(list, groups);
    let mut rows = [false; ROWS];
    for (row, value) in rows.iter_mut().enumerate() {
        *value = eval(list, &places, row);
    }
    rows
}
