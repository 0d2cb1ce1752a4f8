// The plan type: limits, where everything lies, and the empty plan.
ghost use Rattle.std.specs.Prelude.{◌≡◌, replicate};
ghost use Rattle.words.specs.Layout.{words};

// A plan is one array of words. A task is a row of sixteen words; row 0 is nobody's, and the row
// behind the last task's is the head of the plan. Behind the rows stand the two orders, and the set
// of ready tasks as bits.
#[repr(C)]
#[derive(Drop)]
pub struct Plan {
    pub words: [u32; Plan::WORDS],
}

impl Plan {
    // "Limits: n is 1 to 1,024; p is 1 to 64; work and out are 0 to 65,535; M is any unsigned 32-bit
    // number", and a start list "of at least 64 entries"
    pub const MAX_TASKS: usize = 1024;

    pub const MAX_PROCESSORS: usize = 64;

    pub const MAX_COUNT: u32 = 65535;

    pub const MAX_BOUND: u32 = 4294967295;

    pub const LEAST_STARTS: usize = 64;

    // of a plan that is written out, the bytes of PLAN, those of a task with its entries in the two
    // orders, and the most that a plan has
    pub const OPENING_BYTES: usize = 8;

    pub const TASK_BYTES: usize = 13;

    pub const MOST_BYTES: usize = Plan::OPENING_BYTES + Plan::TASK_BYTES * Plan::MAX_TASKS;

    // words of a row, and columns of a task
    pub const ROW: usize = 16;

    pub const PARENT: usize = 0;

    pub const RANK: usize = 1;

    pub const PLACE: usize = 2;

    pub const UNENDED: usize = 3;

    pub const STANDING: usize = 4;

    // a store has five columns, from its offset on
    pub const CHILLED: usize = 5;

    pub const WORK: usize = 0;

    pub const OUT: usize = 1;

    pub const NEED: usize = 2;

    pub const BOOKED: usize = 3;

    pub const FIGURE: usize = 4;

    // the row of the head, and its words: the phase, n, p, how many rows and entries of the orders are
    // given, how far booking ahead has come, and how many tasks run and have ended
    pub const HEAD: usize = Plan::MAX_TASKS + 1;

    pub const PHASE: usize = 0;

    pub const SIZE: usize = 1;

    pub const PROCESSORS: usize = 2;

    pub const GIVEN: usize = 3;

    pub const RANKED: usize = 4;

    pub const PLACED: usize = 8;

    pub const NEXT: usize = 9;

    pub const ACTIVE: usize = 13;

    pub const ENDED: usize = 14;

    // of a store the head has, from the store's offset on, M, B and what is in use
    pub const BOUND: usize = 0;

    pub const TOTAL: usize = 1;

    pub const USED: usize = 2;

    // where the orders and the ready set begin, and the word that says which words of the set are not 0
    pub const ACTIVATION: usize = Plan::ROW * (Plan::HEAD + 1);

    pub const EXECUTION: usize = Plan::ACTIVATION + Plan::MAX_TASKS;

    pub const READY_SET: usize = Plan::EXECUTION + Plan::MAX_TASKS;

    // bits of a word, and words of the ready set
    pub const BITS: usize = 32;

    pub const BLOCKS: usize = Plan::MAX_TASKS / Plan::BITS;

    pub const FILLED: usize = Plan::READY_SET + Plan::BLOCKS;

    pub const WORDS: usize = Plan::FILLED + 1;

    // The empty plan.
    pub fn new() -> Self
        ensures { result.words ≡ replicate words 0 }
    {
        Plan {
            words: [0u32; Plan::WORDS],
        }
    }
}
