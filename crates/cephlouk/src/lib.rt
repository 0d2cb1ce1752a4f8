// The library for programs in C, C++ and Rust: a plan that the caller keeps as an array of words.
#![tactic(auto)]

mod abi;
mod command;
mod records;

ghost use Rattle.std.specs.Prelude.{◌≡◌, replicate};
ghost use Rattle.postorders.specs.Find as orders;
ghost use Rattle.rules.specs.Question as questions;
ghost use Rattle.whys.specs.Why as reasons;
ghost use Rattle.streams.specs.Write as writing;
ghost use Rattle.words.specs.Layout.{words};
ghost use Rattle.answer.specs.Meaning.{plan_of, wrote_of};
ghost use Rattle.answer.specs.ValidPlan.{ValidPlan, Commanded};
ghost use Rattle.reason.specs.Meaning.{answered};
ghost use Rattle.cephlouk.specs.Flat.{flat};

use answer::{Answer, Wrote};
use finding::find_order;
use plan::command;
use question::{booked, fullness, in_use, phase, standing};
use reason::{Reason, why};
use refusal::Refusal;
use words::plan::Plan;
use writer::write;

// The words become the empty plan.
#[unsafe(no_mangle)]
pub extern "C" fn cephlouk_plan_empty(plan: &mut Plan)
    ensures { plan.new.words ≡ replicate words 0 }
{
    plan.words = [0u32; Plan::WORDS];
}

// One command, asked in bytes.
#[unsafe(no_mangle)]
pub extern "C" fn cephlouk_plan_command(
    plan: &mut Plan,
    stream: &[u8],
    place: usize,
    starts: &mut [u16],
) -> Answer
    requires { ValidPlan plan.old.words }
    ensures { Commanded plan.old.words (record { stream = stream.now; place = place; list = starts.old }) result plan.new.words starts.new }
{
    Answer::from(command(plan, stream, place, starts))
}

// "Phases: empty, steps, orders, running, over": 0 to 4.
#[unsafe(no_mangle)]
pub extern "C" fn cephlouk_plan_phase(plan: &Plan) -> u32
    ensures { result ≡ (plan_of plan.now.words).phase }
{
    phase(plan)
}

// "Booked trays, trays in use and fullness can be asked of the plan at any time, and are 0 outside
// running."
#[unsafe(no_mangle)]
pub extern "C" fn cephlouk_plan_booked(plan: &Plan) -> u32
    requires { ValidPlan plan.now.words }
    ensures { result ≡ questions.booked (plan_of plan.now.words) }
{
    booked(plan)
}

#[unsafe(no_mangle)]
pub extern "C" fn cephlouk_plan_in_use(plan: &Plan) -> u32
    requires { ValidPlan plan.now.words }
    ensures { result ≡ questions.in_use (plan_of plan.now.words) }
{
    in_use(plan)
}

#[unsafe(no_mangle)]
pub extern "C" fn cephlouk_plan_fullness(plan: &Plan) -> u32
    requires { ValidPlan plan.now.words }
    ensures { result ≡ questions.fullness (plan_of plan.now.words) }
{
    fullness(plan)
}

// "Fullness of b in M, both 32-bit", of any two numbers and no plan. No number in it is wider than 32
// bits, as the maker of a door panel asks of code that draws.
#[unsafe(no_mangle)]
pub extern "C" fn cephlouk_thousandths(booked: u32, bound: u32) -> u32
    ensures { result ≡ questions.fullness_of booked bound }
{
    measure::fullness(booked, bound)
}

// "The standing of the day is four counts": waiting, booked, running and ended.
#[repr(C)]
#[derive(Clone, Copy)]
pub struct Standing {
    pub counts: [u32; 4],
}

#[unsafe(no_mangle)]
pub extern "C" fn cephlouk_plan_standing(plan: &Plan) -> Standing
    requires { ValidPlan plan.now.words }
    ensures { result.counts ≡ questions.standing (plan_of plan.now.words) }
{
    let counts = standing(plan);
    Standing { counts }
}

// Why a task is not starting: the ground of a refusal, or 0; which reason it is, in the order in which
// they are tried; the task that it names; and the places that are lacking. What a reason does not tell is
// 0.
#[repr(C)]
#[derive(Clone, Copy)]
pub struct FlatReason {
    pub number: u8,
    pub kind: u8,
    pub task: u16,
    pub lack: u32,
}

impl FlatReason {
    pub const REFUSED: u8 = 0;

    pub const ENDED: u8 = 1;

    pub const RUNNING: u8 = 2;

    pub const NOT_BOOKED: u8 = 3;

    pub const UNFED: u8 = 4;

    pub const NO_PROCESSOR: u8 = 5;
}

// A reason that is told.
fn told(kind: u8, task: u16, lack: u32) -> FlatReason
    ensures { result ≡ record { number = 0; kind = kind; task = task; lack = lack } }
{
    FlatReason {
        number: 0,
        kind,
        task,
        lack,
    }
}

impl From<Result<Reason, Refusal>> for FlatReason {
    ghost from_gives = { λ outcome told. told ≡ flat (answered outcome) };

    fn from(outcome: Result<Reason, Refusal>) -> FlatReason {
        match outcome {
            Err(refusal) => FlatReason {
                number: u8::from(refusal),
                kind: FlatReason::REFUSED,
                task: 0,
                lack: 0,
            },
            Ok(Reason::Ended) => told(FlatReason::ENDED, 0, 0),
            Ok(Reason::Running) => told(FlatReason::RUNNING, 0, 0),
            Ok(Reason::NotBooked { first, lack }) => told(FlatReason::NOT_BOOKED, first, lack),
            Ok(Reason::Unfed(child)) => told(FlatReason::UNFED, child, 0),
            Ok(Reason::NoProcessor) => told(FlatReason::NO_PROCESSOR, 0, 0),
        }
    }
}

// "Given a step in the running phase, the tool says the first that is true".
#[unsafe(no_mangle)]
pub extern "C" fn cephlouk_plan_why(plan: &Plan, task: u16) -> FlatReason
    requires { ValidPlan plan.now.words }
    ensures { result ≡ flat (reasons.why (plan_of plan.now.words) task) }
{
    FlatReason::from(why(plan, task))
}

// "Write a plan back out": to the front of a lent list of bytes, which a refusal leaves as it was.
#[unsafe(no_mangle)]
pub extern "C" fn cephlouk_plan_write(plan: &Plan, list: &mut [u8]) -> Wrote
    requires { ValidPlan plan.now.words }
    ensures { wrote_of result list.new ≡ writing.write (plan_of plan.now.words) list.old }
{
    Wrote::from(write(plan, list))
}

// "Find a good activation order": to the front of a lent list of step numbers, which a refusal leaves as
// it was.
#[unsafe(no_mangle)]
pub extern "C" fn cephlouk_plan_find_order(plan: &Plan, list: &mut [u16]) -> Wrote
    requires { ValidPlan plan.now.words }
    ensures { wrote_of result list.new ≡ orders.find_order (plan_of plan.now.words) list.old }
{
    Wrote::from(find_order(plan, list))
}
