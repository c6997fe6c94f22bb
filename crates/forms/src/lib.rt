// The rows of tables, which are 0, 1 or free, and the forms, by which a tree is made of a variable's tree and two others. What a form
// asks of the rows is in specs/InnerForms.antt, and that it gives a tree that agrees with them in proofs/FormLaws.antt. There is no
// function here.
#![tactic(auto)]

// A row of a table: 1 (on), 0 (off), or free.
#[derive(Clone, Copy, Debug, PartialEq, Eq)]
pub struct Row {
    pub on: bool,
    pub off: bool,
}

impl Row {
    pub const FREE: Row = Row {
        on: false,
        off: false,
    };
}

// How a tree is made of a variable's tree x and of the trees a and b:
// a; a - (x - b); a U (x - b); (a - x) U (x - b); (a U x) - (x - b); a - (b - x); (a - x) U b; (a U x) - b.
#[derive(Clone, Copy, Debug, PartialEq, Eq)]
pub enum Form {
    Drop,
    Less,
    Plus,
    ReducedPlus,
    JoinedLess,
    LessOutside,
    ReducedUnion,
    JoinedDifference,
}
