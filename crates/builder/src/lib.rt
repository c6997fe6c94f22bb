// Small trees for tables whose rows are 0, 1 or free: one variable at a time, by the split that `splits` chooses.
#![tactic(auto)]

ghost use Rattle.std.specs.Prelude.{◌≡◌, [], ◌∷◌, suc, ◌+◌, ◌-◌, ◌<◌, ◌≤◌, eqb, length, take};
ghost use Rattle.tree.specs.Tree.{sign, operator_of, most_groups};
ghost use Rattle.tree.specs.InnerWriting.{Wrote};
ghost use Rattle.builder.specs.InnerBuilding.{outer, without, most_for, Ready, Turned, Holding, Built, between, variable_list, joined_by, left_written, ends_there, before_written, after_written};

use forms::{Form, Row};
use free_tables::{HALF_ROWS, Parts};
use splits::{Holder, Split};
use tree::MOST_GROUPS;

// ---- writing

// Writes an operator after its operands, which stand from `from` and from `middle` on; nothing where one of them is empty.
pub fn operate(out: &mut [u16], from: usize, middle: usize, to: usize, operator: u16) -> usize
    requires { to + 1 ≤ length out.old }
    ensures { Wrote out.old to out.new result (between from middle to operator) }
{
    if from == middle || middle == to {
        return to;
    }
    tree::write_one(operator, out, to)
}

// The list of a variable's tree: the holder's where x is 0, else the group x.
fn variable_list<'a>(x: &'a u16, holder: &'a [u16]) -> &'a [u16]
    ensures { result.now ≡ variable_list holder.now x.now }
{
    if *x == 0 {
        holder
    } else {
        std::slice::from_ref(x)
    }
}

// Joins a variable's tree, whose list is `xs`, to the one that stands from `from` to `at`, and may be empty.
fn write_joined(operator: u16, xs: &[u16], out: &mut [u16], from: usize, at: usize) -> usize
    requires { at + length (joined_by operator (eqb from at) xs.now) ≤ length out.old }
    ensures { Wrote out.old at out.new result (joined_by operator (eqb from at) xs.now) }
{
    if from != at {
        let next = tree::copy(xs, out, at);
        tree::write_one(operator, out, next)
    } else if operator == tree::DIFFERENCE {
        at
    } else {
        tree::copy(xs, out, at)
    }
}

// ---- the forms

// The operator between a form's two operands.
fn outer(form: Form) -> u16
    ensures { result ≡ sign (operator_of (outer form)) }
{
    match form {
        Form::Drop | Form::Plus | Form::ReducedPlus | Form::ReducedUnion => tree::UNION,
        Form::Less | Form::JoinedLess | Form::LessOutside | Form::JoinedDifference =>
            tree::DIFFERENCE,
    }
}

// Makes a, which stands from `from` to `at`, the left operand.
fn write_left(form: Form, xs: &[u16], out: &mut [u16], from: usize, at: usize) -> usize
    requires { at + length (left_written form (eqb from at) xs.now) ≤ length out.old }
    ensures { Wrote out.old at out.new result (left_written form (eqb from at) xs.now) }
{
    match form {
        Form::Drop | Form::Less | Form::Plus | Form::LessOutside => at,
        Form::ReducedPlus | Form::ReducedUnion => write_joined(tree::DIFFERENCE, xs, out, from, at),
        Form::JoinedLess | Form::JoinedDifference => write_joined(tree::UNION, xs, out, from, at),
    }
}

// Whether the tree ends with the left operand, which may be empty.
fn ends_there(form: Form, empty: bool) -> bool
    ensures { result ≡ ends_there form empty }
{
    form == Form::Drop || empty && outer(form) == tree::DIFFERENCE
}

// Writes what the right operand has before b.
fn write_before(form: Form, xs: &[u16], out: &mut [u16], at: usize) -> usize
    requires { at + length (before_written form xs.now) ≤ length out.old }
    ensures { Wrote out.old at out.new result (before_written form xs.now) }
{
    match form {
        Form::Less | Form::Plus | Form::ReducedPlus | Form::JoinedLess => tree::copy(xs, out, at),
        Form::Drop | Form::LessOutside | Form::ReducedUnion | Form::JoinedDifference => at,
    }
}

// Makes b, which stands from `middle` to `to`, the right operand, which stands from `left` on.
fn write_after(
    form: Form,
    xs: &[u16],
    out: &mut [u16],
    left: usize,
    middle: usize,
    to: usize,
) -> usize
    requires { to + length (after_written form left middle to xs.now) + 1 ≤ length out.old }
    ensures { Wrote out.old to out.new result (after_written form left middle to xs.now) }
{
    match form {
        Form::Less | Form::Plus | Form::ReducedPlus | Form::JoinedLess => {
            operate(out, left, middle, to, tree::DIFFERENCE)
        }
        Form::LessOutside => write_joined(tree::DIFFERENCE, xs, out, middle, to),
        Form::Drop | Form::ReducedUnion | Form::JoinedDifference => to,
    }
}

// ---- the variables

// The variables without the one at index v.
fn without(groups: &[u16], v: usize) -> [u16; MOST_GROUPS]
    requires { (v < length groups.now) × (length groups.now ≤ most_groups) }
    ensures { take (length groups.now - 1) result ≡ without v groups.now }
{
    let mut rest = [0; MOST_GROUPS];
    let next = tree::copy(&groups[..v], &mut rest, 0);
    tree::copy(&groups[v + 1..], &mut rest, next);
    rest
}

// ---- the tree of a table

// A part of a table: its rows, and what becomes of the holder in its tree.
#[derive(Clone, Copy)]
struct Part {
    rows: [Row; HALF_ROWS],
    holder: Holder,
}

// A split of a table: its form, its variable x and the other variables, and the parts a and b.
#[derive(Clone, Copy)]
struct Turn {
    form: Form,
    x: u16,
    rest: [u16; MOST_GROUPS],
    a: Part,
    b: Part,
}

// The split that is taken at a table over n variables and one more.
fn turn_of(table: &[Row], m: Holder, groups: &[u16], n: usize) -> Turn
    requires { Ready m table.now groups.now × (length groups.now ≡ suc n) }
    ensures { Turned m table.now groups.now n result }
{
    let Split {
        form,
        variable,
        plan,
    } = splits::split_taken(table, n, m);
    let Parts { first, second } = free_tables::split(table, free_tables::power(variable), form);
    let rest = without(groups, variable);
    Turn {
        form,
        x: groups[variable],
        rest,
        a: Part {
            rows: first,
            holder: splits::first_holder(plan),
        },
        b: Part {
            rows: second,
            holder: splits::second_holder(plan),
        },
    }
}

// Writes the tree of a table over the variables `groups`, where 0 stands for the holder, whose list is `holder`. (The parameters stay
// apart: a struct of table, m and groups is made anew for each call, and its fields are all that is used of it: no plainer.)
pub fn build(
    table: &[Row],
    m: Holder,
    groups: &[u16],
    holder: &[u16],
    out: &mut [u16],
    at: usize,
) -> usize
    requires ready { Ready m table.now groups.now }
    requires holding { Holding m holder.now }
    requires holder_in_bounds { at + most_for m (length groups.now) (length holder.now) ≤ length out.old }
    ensures { Built m table.now groups.now holder.now out.old at out.new result }
{
    let k = groups.len();
    if k == 0 {
        return at;
    }
    let n = k - 1;
    let count = table.len() / 2;
    let turn = turn_of(table, m, groups, n);
    let form = turn.form;
    let xs = variable_list(&turn.x, holder);
    let rest = &turn.rest[..n];
    let a = build(&turn.a.rows[..count], turn.a.holder, rest, holder, out, at);
    let left = write_left(form, xs, out, at, a);
    if ends_there(form, at == left) {
        return left;
    }
    let middle = write_before(form, xs, out, left);
    let b = build(
        &turn.b.rows[..count],
        turn.b.holder,
        rest,
        holder,
        out,
        middle,
    );
    let right = write_after(form, xs, out, left, middle, b);
    operate(out, at, left, right, outer(form))
}
