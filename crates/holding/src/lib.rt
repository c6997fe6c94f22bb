// Whether a tree is gathered already, and its holder's position, by one pass.
#![tactic(auto)]

ghost use Rattle.std.specs.Prelude.{◌≡◌};
ghost use Rattle.tree.specs.Tree.{Tree, postfix, is_in};
ghost use Rattle.table.specs.InnerTable.{Listed};
ghost use Rattle.holding.specs.InnerHolding.{holder, merged, status_of, status};

// Of a part of the tree: no leaf is marked; all are, its root at the position; gathered, the holder at the position; none of these.
#[derive(Clone, Copy)]
pub enum Status {
    Free,
    Mixed,
    All(usize),
    Held(usize),
}

impl Status {
    // The holder's position, where the status names one.
    pub fn holder(self) -> Option<usize>
        ensures { result ≡ holder self }
    {
        match self {
            Status::Free | Status::Mixed => None,
            Status::All(at) | Status::Held(at) => Some(at),
        }
    }
}

// The status of a node at a position, by its operands'.
fn merge(a: Status, b: Status, at: usize) -> Status
    ensures { result ≡ merged at a b }
{
    match (a, b) {
        (Status::Free, Status::Free) => Status::Free,
        (Status::Free, Status::All(k) | Status::Held(k)) => Status::Held(k),
        (Status::All(j) | Status::Held(j), Status::Free) => Status::Held(j),
        (Status::All(_), Status::All(_)) => Status::All(at),
        _ => Status::Mixed,
    }
}

// The status of a leaf at a position.
fn leaf_status(marks: &[u16], at: usize, x: u16) -> Status
    ensures { result ≡ status_of (is_in marks.now x) at }
{
    if tree::is_in(marks, x) {
        Status::All(at)
    } else {
        Status::Free
    }
}

// The status of the whole tree.
pub fn holding(list: &[u16], marks: &[u16]) -> Status
    requires { Listed list.now }
    ensures { (t : Tree) → list.now ≡ postfix t → result ≡ status (is_in marks.now) 0 t }
{
    // An array and its count, in fixed memory: a Vec could fail, and this answers for every tree.
    let mut stack = [Status::Free; tree::MOST_NODES];
    let mut top: usize = 0;
    for (at, x) in list.iter().enumerate() {
        if *x < tree::UNION {
            stack[top] = leaf_status(marks, at, *x);
            top += 1;
        } else {
            let left = top - 2;
            stack[left] = merge(stack[left], stack[left + 1], at);
            top = left + 1;
        }
    }
    stack[0]
}
