// Tables whose rows are 0, 1 or free, and their parts: the tables with a variable less, by a form.
#![tactic(auto)]

ghost use Rattle.std.specs.Prelude.{◌≡◌, List, ◌+◌, ◌%◌, ◌^◌, ◌<◌, ◌≤◌, length};
ghost use Rattle.tree.specs.Tree.{most_groups};
ghost use Rattle.forms.specs.InnerForms.{inverse, may_use, first_row, second_row};
ghost use Rattle.free_tables.specs.InnerTables.{may_use_all, usable, some_on, Splits, Parted};

use forms::{Form, Row};

// As many rows as a part of a table of 256 rows has.
pub const HALF_ROWS: usize = 128;

// 2 to the power k.
pub fn power(k: usize) -> usize
    requires { k ≤ most_groups }
    ensures { result ≡ 2 ^ k }
{
    1 << k
}

// Whether a form may be used at a row l without the variable and h with it.
fn may_use(form: Form, l: Row, h: Row) -> bool
    ensures { result ≡ may_use form l h }
{
    let rises = l.off & h.on;
    let falls = l.on & h.off;
    match form {
        Form::Drop => !(rises | falls),
        Form::Less | Form::ReducedUnion => !rises,
        Form::Plus | Form::LessOutside | Form::JoinedDifference => !falls,
        Form::ReducedPlus | Form::JoinedLess => true,
    }
}

// The row of a's table.
fn first_row(form: Form, l: Row, h: Row) -> Row
    ensures { result ≡ first_row form l h }
{
    match form {
        Form::Drop => Row {
            on: l.on | h.on,
            off: l.off | h.off,
        },
        Form::Less => Row {
            on: l.on | h.on,
            off: l.off,
        },
        Form::Plus => Row {
            on: l.on,
            off: l.off | h.off,
        },
        Form::ReducedPlus | Form::JoinedLess => l,
        Form::LessOutside => Row {
            on: l.on | h.on,
            off: h.off,
        },
        Form::ReducedUnion => Row {
            on: l.on & !h.on,
            off: l.off,
        },
        Form::JoinedDifference => Row {
            on: l.on,
            off: l.off & !h.off,
        },
    }
}

// The row of the complement.
fn inverse(r: Row) -> Row
    ensures { result ≡ inverse r }
{
    Row {
        on: r.off,
        off: r.on,
    }
}

// The row of b's table.
fn second_row(form: Form, l: Row, h: Row) -> Row
    ensures { result ≡ second_row form l h }
{
    match form {
        Form::Drop => Row::FREE,
        Form::Less => Row {
            on: h.on,
            off: h.off & !l.off,
        },
        Form::Plus => Row {
            on: h.off,
            off: h.on & !l.on,
        },
        Form::ReducedPlus => inverse(h),
        Form::JoinedLess => h,
        Form::LessOutside => Row {
            on: l.off & !h.off,
            off: l.on,
        },
        Form::ReducedUnion => Row {
            on: h.on,
            off: l.off | h.off,
        },
        Form::JoinedDifference => Row {
            on: h.off,
            off: l.on | h.on,
        },
    }
}

// One more than k, which counts up to `step` and then from 0 again.
fn next_place(k: usize, step: usize) -> usize
    requires { k < step }
    ensures { result ≡ (k + 1) % step }
{
    if k + 1 == step { 0 } else { k + 1 }
}

// Whether the form may be used at every row.
fn may_use_all(table: &[Row], step: usize, form: Form) -> bool
    requires { Splits table.now step }
    ensures { result ≡ may_use_all form table.now step }
{
    let mut k = 0; // r % step, without a division
    for r in 0..table.len() / 2 {
        let low = r + (r - k);
        if !may_use(form, table[low], table[low + step]) {
            return false;
        }
        k = next_place(k, step);
    }
    true
}

// Whether the form may be used at every row, and neither part is 1 at its row 0.
pub fn usable(table: &[Row], step: usize, form: Form) -> bool
    requires { Splits table.now step }
    ensures { result ≡ usable form table.now step }
{
    let low = table[0];
    let high = table[step];
    if first_row(form, low, high).on || second_row(form, low, high).on {
        return false;
    }
    may_use_all(table, step, form)
}

// Whether some row is 1.
pub fn some_on(table: &[Row]) -> bool
    ensures { result ≡ some_on table.now }
{
    table.iter().any(|row| row.on)
}

// The rows of the parts, which have a variable less.
#[derive(Clone, Copy)]
pub struct Parts {
    pub first: [Row; HALF_ROWS],
    pub second: [Row; HALF_ROWS],
}

// The tables of a and b.
pub fn split(table: &[Row], step: usize, form: Form) -> Parts
    requires { Splits table.now step }
    ensures { Parted result form table.now step }
{
    let mut first = [Row::FREE; HALF_ROWS];
    let mut second = [Row::FREE; HALF_ROWS];
    let mut k = 0; // r % step, without a division
    for r in 0..table.len() / 2 {
        let low = r + (r - k);
        let l = table[low];
        let h = table[low + step];
        first[r] = first_row(form, l, h);
        second[r] = second_row(form, l, h);
        k = next_place(k, step);
    }
    Parts { first, second }
}
