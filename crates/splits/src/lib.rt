// Which variable a table is split by, and by which form.
#![tactic(auto)]

ghost use Rattle.std.specs.Prelude.{MatchOption, Some, ◌≡◌, ℕ, suc, ◌^◌, ◌<◌, ◌≤◌};
ghost use Rattle.forms.specs.InnerForms.{keeps_by};
ghost use Rattle.splits.specs.InnerSplits.{form_count, form_of, keeps_holder, allowed_top, first_top, can_hold, starts_with_first, drops_in_first, beside_use, split_use, use_below, use_of, first_holder, second_holder, leaves_by, estimate, cost_by, never, candidate_form, candidate_variable, candidate, choose, split_taken, Sized};

use forms::{Form, Row};

// The forms by number.
const FORMS: [Form; 8] = [
    Form::Drop,
    Form::Less,
    Form::Plus,
    Form::ReducedPlus,
    Form::JoinedLess,
    Form::LessOutside,
    Form::ReducedUnion,
    Form::JoinedDifference,
];

// Whether the holder of the marked groups is a variable, the highest one, and whether its tree is to stand in the tree built.
#[derive(Clone, Copy, Debug, PartialEq, Eq)]
pub enum Holder {
    Absent,
    Dropped,
    Held,
}

// What a split does with the parts: both without the holder; the holder in the first, or in the second.
#[derive(Clone, Copy, Debug, PartialEq, Eq)]
pub enum Plan {
    Plain,
    First,
    Second,
}

// A split: the form, the variable, and what happens to the holder.
#[derive(Clone, Copy, Debug, PartialEq, Eq)]
pub struct Split {
    pub form: Form,
    pub variable: usize,
    pub plan: Plan,
}

// Whether a form is a difference whose left operand is a alone.
fn starts_with_first(form: Form) -> bool
    ensures { result ≡ starts_with_first form }
{
    matches!(form, Form::Less | Form::LessOutside)
}

// Whether the form has the holder's tree once, and no left operand of a difference above it is empty: a is some tree, and b.
fn keeps_by(form: Form, a: bool, b: bool) -> bool
    ensures { result ≡ keeps_by form a b }
{
    match form {
        Form::Drop => false,
        Form::ReducedPlus | Form::JoinedLess => false, // two leaves
        Form::Less | Form::ReducedUnion => a,
        Form::LessOutside => a & b,
        Form::Plus | Form::JoinedDifference => true,
    }
}

// The same at the highest variable, the holder's.
fn keeps_holder(table: &[Row], form: Form) -> bool
    requires { (n : ℕ) × Sized table.now (suc n) }
    ensures { result ≡ keeps_holder form table.now }
{
    let count = table.len() / 2;
    let parts = free_tables::split(table, count, form);
    let a = free_tables::some_on(&parts.first[..count]);
    let b = free_tables::some_on(&parts.second[..count]);
    keeps_by(form, a, b)
}

// Whether the form may split the highest variable.
fn allowed_top(table: &[Row], form: Form, m: Holder) -> bool
    requires { (n : ℕ) × Sized table.now (suc n) }
    ensures { result ≡ allowed_top m form table.now }
{
    if !free_tables::usable(table, table.len() / 2, form) {
        return false;
    }
    match m {
        Holder::Absent => true,
        Holder::Dropped => form == Form::Drop,
        Holder::Held => keeps_holder(table, form),
    }
}

// The first form that may.
fn first_top(table: &[Row], m: Holder) -> Option<Form>
    requires { (n : ℕ) × Sized table.now (suc n) }
    ensures { MatchOption result (first_top m table.now ≡ form_count) (λ form. (first_top m table.now < form_count) × (form ≡ form_of (first_top m table.now))) }
{
    for form in FORMS {
        if allowed_top(table, form, m) {
            return Some(form);
        }
    }
    None
}

// The same for an estimate, which has a form where none may too.
fn top_form(table: &[Row], m: Holder) -> Form
    requires { (n : ℕ) × Sized table.now (suc n) }
    ensures { result ≡ form_of (first_top m table.now) }
{
    first_top(table, m).unwrap_or(Form::JoinedDifference)
}

// Whether some form may split the holder.
fn can_hold(table: &[Row]) -> bool
    requires { (n : ℕ) × Sized table.now (suc n) }
    ensures { result ≡ can_hold table.now }
{
    first_top(table, Holder::Held).is_some()
}

// Whether the holder may be dropped in a's tree.
fn drops_in_first(table: &[Row], form: Form) -> bool
    requires { (n : ℕ) × Sized table.now (suc n) }
    ensures { result ≡ drops_in_first form table.now }
{
    let count = table.len() / 2;
    if !free_tables::usable(table, count, Form::Drop) {
        return false;
    }
    if !starts_with_first(form) {
        return true;
    }
    let parts = free_tables::split(table, count, Form::Drop);
    free_tables::some_on(&parts.first[..count])
}

// In which part's tree the holder stands; it is dropped in the other's.
fn beside_use(a: &[Row], b: &[Row], form: Form) -> Option<Plan>
    requires { (n : ℕ) × Sized a.now (suc n) × Sized b.now (suc n) }
    ensures { result ≡ beside_use form a.now b.now }
{
    if free_tables::usable(b, b.len() / 2, Form::Drop) {
        if can_hold(a) { Some(Plan::First) } else { None }
    } else if drops_in_first(a, form) && can_hold(b) {
        Some(Plan::Second)
    } else {
        None
    }
}

// The same by the parts of a table.
fn split_beside(table: &[Row], form: Form, v: usize) -> Option<Plan>
    requires { (n : ℕ) × Sized table.now (suc (suc n)) × (v ≤ n) }
    ensures { result ≡ split_use form table.now (2 ^ v) }
{
    let count = table.len() / 2;
    let parts = free_tables::split(table, free_tables::power(v), form);
    beside_use(&parts.first[..count], &parts.second[..count], form)
}

// What a split by a variable below the highest does, if it is allowed.
fn use_below(table: &[Row], form: Form, m: Holder, v: usize) -> Option<Plan>
    requires { (n : ℕ) × Sized table.now (suc (suc n)) × (v ≤ n) }
    ensures { result ≡ use_below m form table.now (2 ^ v) }
{
    if !free_tables::usable(table, free_tables::power(v), form) {
        return None;
    }
    match m {
        Holder::Absent => Some(Plan::Plain),
        Holder::Dropped => None,
        Holder::Held => split_beside(table, form, v),
    }
}

// What a split by any variable does, if it is allowed.
fn use_of(table: &[Row], n: usize, form: Form, m: Holder, v: usize) -> Option<Plan>
    requires { Sized table.now (suc n) }
    ensures { result ≡ use_of m form table.now n v }
{
    if v < n {
        use_below(table, form, m, v)
    } else if allowed_top(table, form, m) {
        Some(Plan::Plain)
    } else {
        None
    }
}

// What becomes of the holder in the parts.
pub fn first_holder(plan: Plan) -> Holder
    ensures { result ≡ first_holder plan }
{
    match plan {
        Plan::Plain => Holder::Absent,
        Plan::First => Holder::Held,
        Plan::Second => Holder::Dropped,
    }
}

pub fn second_holder(plan: Plan) -> Holder
    ensures { result ≡ second_holder plan }
{
    match plan {
        Plan::Plain => Holder::Absent,
        Plan::First => Holder::Dropped,
        Plan::Second => Holder::Held,
    }
}

// ---- which split

// Leaves of a form's tree by those of a and b.
fn leaves_by(form: Form, a: usize, b: usize) -> usize
    requires { (a ≤ never) × (b ≤ never) }
    ensures { result ≡ leaves_by form a b }
{
    match form {
        Form::Drop => a,
        Form::Less | Form::LessOutside if a == 0 => 0,
        Form::LessOutside if b == 0 => a,
        Form::ReducedPlus if a == 0 => 1 + b,
        Form::ReducedUnion if a == 0 => b,
        Form::ReducedPlus | Form::JoinedLess => a + 2 + b,
        _ => a + 1 + b,
    }
}

// Leaves of a tree for a table of k variables, if always the highest is split by the first form that may.
fn estimate(table: &[Row], k: usize, m: Holder) -> usize
    requires { Sized table.now k }
    ensures { result ≡ estimate k m table.now }
{
    if k == 0 {
        return 0;
    }
    let form = top_form(table, m);
    if k == 1 {
        return leaves_by(form, 0, 0);
    }
    let count = table.len() / 2;
    let parts = free_tables::split(table, count, form);
    let a = estimate(&parts.first[..count], k - 1, Holder::Absent);
    if form == Form::Drop {
        return a;
    }
    let b = estimate(&parts.second[..count], k - 1, Holder::Absent);
    leaves_by(form, a, b)
}

// Leaves after a split, by these estimates.
fn leaves_after(table: &[Row], n: usize, split: Split) -> usize
    requires { Sized table.now (suc n) × (split.variable ≤ n) }
    ensures { result ≡ cost_by (Some split.plan) split.form table.now n (2 ^ split.variable) }
{
    let Split {
        form,
        variable,
        plan,
    } = split;
    let count = table.len() / 2;
    let parts = free_tables::split(table, free_tables::power(variable), form);
    let a = estimate(&parts.first[..count], n, first_holder(plan));
    if form == Form::Drop {
        return a;
    }
    let b = estimate(&parts.second[..count], n, second_holder(plan));
    leaves_by(form, a, b)
}

// The form of a candidate.
fn candidate_form(i: usize) -> Form
    ensures { result ≡ candidate_form i }
{
    FORMS[i % FORMS.len()]
}

// The variable of a candidate.
fn candidate_variable(n: usize, i: usize) -> usize
    ensures { result ≡ candidate_variable n i }
{
    n.min(i / FORMS.len())
}

// A candidate's split, if it is allowed.
fn candidate(table: &[Row], n: usize, m: Holder, i: usize) -> Option<Split>
    requires { Sized table.now (suc n) }
    ensures { result ≡ candidate m table.now n i }
{
    let form = candidate_form(i);
    let variable = candidate_variable(n, i);
    let plan = use_of(table, n, form, m, variable)?;
    Some(Split {
        form,
        variable,
        plan,
    })
}

// The allowed candidate that looks best one split ahead.
fn choose(table: &[Row], n: usize, m: Holder) -> Option<Split>
    requires { Sized table.now (suc n) }
    ensures { result ≡ candidate m table.now n (choose m table.now n) }
{
    let mut best = None;
    let mut least = usize::MAX;
    for i in 0..FORMS.len() * (n + 1) {
        if let Some(split) = candidate(table, n, m, i) {
            let leaves = leaves_after(table, n, split);
            if leaves < least {
                best = Some(split);
                least = leaves;
            }
        }
    }
    best
}

// The split that is taken: the candidate chosen where there is one, and else the highest variable by the first form that may.
pub fn split_taken(table: &[Row], n: usize, m: Holder) -> Split
    requires { Sized table.now (suc n) }
    ensures { result ≡ split_taken m table.now n (choose m table.now n) }
{
    choose(table, n, m).unwrap_or_else(|| Split {
        form: top_form(table, m),
        variable: n,
        plan: Plan::Plain,
    })
}
