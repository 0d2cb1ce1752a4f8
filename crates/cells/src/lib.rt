// Reading and writing one word of a plan: of a row, of a part behind the rows, and the standing of a task. All
// other functions speak of rows and columns. Each asks that there is such a word, so no caller lists this crate.
#![tactic(auto)]

ghost use Rattle.std.specs.Prelude.{◌≡◌, ◌+◌, ◌*◌, ◌≤◌, ◌<◌, eqb, set};
ghost use Rattle.numbers.specs.Lists.{at};
ghost use Rattle.words.specs.Kept.{standing_number};
ghost use Rattle.words.specs.Layout.{row, rows, standing, words};

use words::plan::Plan;
use words::standing::Standing;

pub trait Cells {
    // A word of a row.
    fn cell(&self, line: usize, column: usize) -> u32
        requires { (line ≤ rows) × (column < row) };

    fn set_cell(&mut self, line: usize, column: usize, value: u32)
        requires { (line ≤ rows) × (column < row) };

    // A word behind the rows, in the part that begins at `base`.
    fn entry(&self, base: usize, place: usize) -> u32
        requires { base + place < words };

    fn set_entry(&mut self, base: usize, place: usize, value: u32)
        requires { base + place < words };

    // Whether a task has that standing.
    fn stands(&self, task: usize, kept: Standing) -> bool
        requires { task < rows };

    fn set_standing(&mut self, task: usize, kept: Standing)
        requires { task < rows };
}

impl Cells for Plan {
    fn cell(&self, line: usize, column: usize) -> u32
        requires { (line ≤ rows) × (column < row) }
        ensures { result ≡ at self.now.words (row * line + column) }
    {
        self.words[Plan::ROW * line + column]
    }

    fn set_cell(&mut self, line: usize, column: usize, value: u32)
        requires { (line ≤ rows) × (column < row) }
        ensures { self.new.words ≡ set self.old.words (row * line + column) value }
    {
        self.words[Plan::ROW * line + column] = value;
    }

    fn entry(&self, base: usize, place: usize) -> u32
        requires { base + place < words }
        ensures { result ≡ at self.now.words (base + place) }
    {
        self.words[base + place]
    }

    fn set_entry(&mut self, base: usize, place: usize, value: u32)
        requires { base + place < words }
        ensures { self.new.words ≡ set self.old.words (base + place) value }
    {
        self.words[base + place] = value;
    }

    fn stands(&self, task: usize, kept: Standing) -> bool
        requires { task < rows }
        ensures { result ≡ eqb (at self.now.words (row * task + standing)) (standing_number kept) }
    {
        self.cell(task, Plan::STANDING) == kept as u32
    }

    fn set_standing(&mut self, task: usize, kept: Standing)
        requires { task < rows }
        ensures { self.new.words ≡ set self.old.words (row * task + standing) (standing_number kept) }
    {
        self.set_cell(task, Plan::STANDING, kept as u32);
    }
}
