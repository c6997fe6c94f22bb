// A few different groups, in their order.
ghost use Rattle.std.specs.Prelude.{◌≡◌, ◌≤◌, length, take};
ghost use Rattle.tree.specs.Tree.{most_groups};

use crate::MOST_GROUPS;

// Up to eight groups: the first `count` numbers of the list.
#[derive(Clone, Copy)]
pub struct Groups {
    pub list: [u16; MOST_GROUPS],
    pub count: usize,
    ghost few: { count ≤ most_groups },
}

impl Groups {
    // The groups that there are.
    pub fn as_slice(&self) -> &[u16]
        ensures found { result.now ≡ take self.now.count self.now.list }
        ensures few { length result.now ≤ most_groups }
    {
        &self.list[..self.count]
    }
}
