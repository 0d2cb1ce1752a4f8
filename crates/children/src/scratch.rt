// The scratch array: six columns, each with an entry for every task and entry 0 for nobody. All memory is
// fixed, so that the children of a task are a list of links from entry to entry. `Children` goes along one;
// whoever writes other entries on the way goes to the next sibling until 0 comes.
ghost use Rattle.std.specs.Prelude.{◌≡◌, ◌+◌, ◌^◌, ◌<◌, replicate, set};
ghost use Rattle.std.specs.Iterator.{YieldsFirst, item_count};
ghost use Rattle.children.specs.Scratch.{base_of, cells, field};
ghost use Rattle.children.specs.Linked.{linked_in, Linked};

use std::marker::Model;
use words::plan::Plan;

#[derive(Clone, Copy, Debug, PartialEq, Eq)]
pub enum Column {
    // a task's first child, and the next child of the same parent; 0 is none
    First,
    Sibling,
    // the tasks in the sequence in which they are reached
    Queue,
    // the peak of the order of a task's subtree, the task it begins with, and the task behind each
    SubtreePeak,
    Head,
    After,
}

#[derive(Drop)]
pub struct Scratch {
    pub cells: [u32; Scratch::CELLS],
}

impl Scratch {
    // A column has an entry for every task and one for nobody.
    const TALL: usize = Plan::MAX_TASKS + 1;

    const COLUMNS: usize = 6;

    pub const CELLS: usize = Scratch::COLUMNS * Scratch::TALL;

    pub fn new() -> Self
        ensures { result.cells ≡ replicate cells 0 }
    {
        Scratch {
            cells: [0u32; Scratch::CELLS],
        }
    }

    // An entry of a column.
    pub fn get(&self, column: Column, i: usize) -> usize
        requires { base_of column + i < cells }
        ensures { (result ≡ field (base_of column) self.now.cells i) × (result < 2 ^ 32) }
    {
        self.cells[column as usize * Scratch::TALL + i] as usize
    }

    // It is set, and no other entry changes.
    pub fn put(&mut self, column: Column, i: usize, value: usize)
        requires { (base_of column + i < cells) × (value < 2 ^ 32) }
        ensures { self.new.cells ≡ set self.old.cells (base_of column + i) value }
    {
        self.cells[column as usize * Scratch::TALL + i] = value as u32;
    }

    // The children of a task, as they are linked.
    pub fn children(&self, task: usize) -> Children<'_>
        requires { Linked self.now.cells task }
        ensures { result ≡ linked_in self.now.cells task }
    {
        Children {
            scratch: self,
            next: self.get(Column::First, task),
        }
    }
}

// A walk along a list of links, as the list of the tasks that are left.
#[derive(Drop)]
pub struct Children<'a> {
    scratch: &'a Scratch,
    next: usize,
}

impl<'a> Model for Children<'a> {
    ghost use Rattle.std.specs.Prelude.{List, ℕ};
    ghost use Rattle.children.specs.Linked.{linked_from, LinkedFrom};

    ghost Value = { List ℕ };

    ghost view = { λ c. linked_from c.scratch.now.cells c.next };

    ghost invariant = { λ c. LinkedFrom c.scratch.now.cells c.next };
}

impl Iterator for Children<'_> {
    type Item = usize;

    ghost next_gives = { YieldsFirst (λ left. left) };

    ghost remaining = { item_count (λ left. left) };

    fn next(&mut self) -> Option<usize> {
        if self.next == 0 {
            return None;
        }
        let child = self.next;
        self.next = self.scratch.get(Column::Sibling, child);
        Some(child)
    }
}
