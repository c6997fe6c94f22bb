// Which columns of a truth table to build a gathered tree by, if any, and the tree. In a column the marked groups vary and the
// others are fixed; a table's rows are its columns one after the other.
#![tactic(auto)]

ghost use Rattle.std.specs.Prelude.{MatchOption, ◌≡◌, [], ◌∷◌, ◌++◌, ◌+◌, ◌-◌, ◌*◌, ◌%◌, ◌^◌, ◌<◌, ◌≤◌, ltb, length, take, cond};
ghost use Rattle.table.specs.InnerTable.{row_count, rows_of};
ghost use Rattle.tree.specs.Tree.{most_groups};
ghost use Rattle.tree.specs.InnerWriting.{Wrote};
ghost use Rattle.columns.specs.InnerChoosing.{agrees, settled, choice};
ghost use Rattle.columns.specs.InnerJoining.{differs, exact_row, exact_table};
ghost use Rattle.columns.specs.Inner.{Scanned, ScannedBy, failing_by, constant_list, columns_list, Room, ColumnsReady, ConstantReady};

use builder::{build, operate};
use forms::Row;
use free_tables::power;
use splits::Holder;
use table::ROWS;
use tree::MOST_GROUPS;

// The tree that the columns allow, if any: for constant columns; or by the columns' rows `low` and `high` and the column that
// starts at row `start`.
#[derive(Clone, Copy, Debug, PartialEq, Eq)]
pub enum Choice {
    Constant,
    Columns {
        low: usize,
        high: usize,
        start: usize,
    },
}

// A scan over the first `total` rows of a table, in columns of w rows: by the columns' rows `low` and `high` and the column that
// starts at row `start`.
#[derive(Clone, Copy)]
struct Scan {
    w: usize,
    total: usize,
    low: usize,
    high: usize,
    start: usize,
}

// Whether the value at row i is that of its column's rows `low` and `high` and of the column at `start`.
fn agrees_at(t: &[bool; ROWS], scan: Scan, i: usize) -> bool
    requires { ScannedBy scan × (i < scan.total) }
    ensures { result ≡ agrees (rows_of t.now) scan.w scan.low scan.high scan.start i }
{
    let p = i % scan.w;
    let base = i - p;
    let always = t[base + scan.low];
    let sometimes = t[base + scan.high];
    let held = t[scan.start + p];
    let here = t[i];
    here == (always | (sometimes & held))
}

// The first row that does not agree, if any.
fn first_failing(t: &[bool; ROWS], scan: Scan) -> Option<usize>
    requires { ScannedBy scan }
    ensures { MatchOption result (failing_by (rows_of t.now) scan ≡ scan.total) (λ i. (i ≡ failing_by (rows_of t.now) scan) × (i < scan.total)) }
{
    for i in 0..scan.total {
        if !agrees_at(t, scan, i) {
            return Some(i);
        }
    }
    None
}

// With a column that is not constant: every row agrees with it, or no tree is gathered.
fn settle(t: &[bool; ROWS], scan: Scan) -> Option<Choice>
    requires { ScannedBy scan }
    ensures { result ≡ settled (rows_of t.now) scan.w scan.total scan.low scan.high scan.start }
{
    let Scan {
        low,
        high,
        start,
        ..
    } = scan;
    if first_failing(t, scan).is_some() {
        return None;
    }
    Some(Choice::Columns { low, high, start })
}

// The columns to build by: the first scan finds a column that is not constant.
pub fn choose(t: &[bool; ROWS], w: usize, total: usize) -> Option<Choice>
    requires { Scanned w total 0 0 0 }
    ensures { result ≡ choice (rows_of t.now) w total }
{
    let mut scan = Scan {
        w,
        total,
        low: 0,
        high: 0,
        start: 0,
    };
    let Some(i) = first_failing(t, scan) else {
        return Some(Choice::Constant);
    };
    let p = i % w;
    scan.start = i - p;
    if t[i] {
        scan.high = p;
    } else {
        scan.low = p;
    }
    settle(t, scan)
}

// ---- the gathered tree

// A row that is not free.
fn exact_row(on: bool) -> Row
    ensures { result ≡ exact_row on }
{
    Row { on, off: !on }
}

// Where the rows from, from + step, .. of a truth table differ from `base`.
fn rows_of(t: &[bool; ROWS], base: bool, from: usize, step: usize, count: usize) -> [Row; ROWS]
    requires { (1 ≤ step) × (from + step * count ≤ row_count) }
    ensures { take count result ≡ exact_table (λ i. differs (rows_of t.now (from + step * i)) base) count }
{
    let mut rows = [Row::FREE; ROWS];
    for i in 0..count {
        rows[i] = exact_row(t[from + step * i] != base);
    }
    rows
}

// Row i of the table with the holder: of its first half the first row of column i, of its second half row p.
fn held_place(i: usize, w: usize, columns: usize, p: usize) -> usize
    requires { (p < w) × (i < 2 * columns) × (w * columns ≤ row_count) }
    ensures { (result ≡ cond (ltb i columns) (w * i) (w * (i - columns) + p)) × (result < row_count) }
{
    if i < columns {
        w * i
    } else {
        w * (i - columns) + p
    }
}

// The table over the others and the holder.
fn held_rows(t: &[bool; ROWS], w: usize, columns: usize, p: usize) -> [Row; ROWS]
    requires { (p < w) × (w * columns ≤ row_count) × (2 * columns ≤ row_count) }
    ensures { take (2 * columns) result ≡ exact_table (λ i. rows_of t.now (cond (ltb i columns) (w * i) (w * (i - columns) + p))) (2 * columns) }
{
    let mut rows = [Row::FREE; ROWS];
    for i in 0..2 * columns {
        rows[i] = exact_row(t[held_place(i, w, columns, p)]);
    }
    rows
}

// The variables: the others, and 0 for the holder.
fn with_holder(others: &[u16]) -> [u16; MOST_GROUPS]
    requires { length others.now + 1 ≤ most_groups }
    ensures { take (length others.now + 1) result ≡ others.now ++ (0 ∷ []) }
{
    let mut variables = [0; MOST_GROUPS];
    let next = tree::copy(others, &mut variables, 0);
    tree::write_one(0, &mut variables, next);
    variables
}

// All columns are constant: A U (m - m).
pub fn build_constant(t: &[bool; ROWS], marks: &[u16], others: &[u16], out: &mut [u16]) -> usize
    requires room { Room marks.now others.now (length out.old) }
    requires constant_ready { ConstantReady (rows_of t.now) marks.now others.now }
    ensures { Wrote out.old 0 out.new result (constant_list t.now marks.now others.now) }
{
    let w = power(marks.len());
    let columns = power(others.len());
    let rows = rows_of(t, false, 0, w, columns);
    let a = build(&rows[..columns], Holder::Absent, others, &[], out, 0);
    let m = marks[0];
    let h = tree::copy(&[m, m, tree::DIFFERENCE], out, a);
    operate(out, 0, a, h, tree::UNION)
}

// As many nodes as a tree over eight groups has at most.
const HOLDER_NODES: usize = 1275;

// The tree by the columns' first row and row p, and by the column at `start`, whose tree is the holder.
pub fn build_columns(
    t: &[bool; ROWS],
    marks: &[u16],
    others: &[u16],
    p: usize,
    start: usize,
    out: &mut [u16],
) -> usize
    requires room { Room marks.now others.now (length out.old) }
    requires columns_ready { ColumnsReady (rows_of t.now) marks.now others.now p start }
    ensures { Wrote out.old 0 out.new result (columns_list t.now marks.now others.now p start) }
{
    let w = power(marks.len());
    let columns = power(others.len());
    let column = rows_of(t, t[start], start, 1, w);
    let mut holder = [0; HOLDER_NODES];
    let nodes = build(&column[..w], Holder::Absent, marks, &[], &mut holder, 0);
    let variables = with_holder(others);
    let rows = held_rows(t, w, columns, p);
    build(
        &rows[..2 * columns],
        Holder::Held,
        &variables[..others.len() + 1],
        &holder[..nodes],
        out,
        0,
    )
}
