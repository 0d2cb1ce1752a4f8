// A plan written back out: "PLAN, the steps, the activation order, the execution order, without BEGIN,
// into a lent list of bytes". The plan is only read, in one pass over its tasks and one over each
// order.
#![tactic(auto)]

ghost use Rattle.std.specs.Prelude.{◌≡◌, take};
ghost use mathlib.Core.List.{map, flat_map};
ghost use Rattle.format.specs.Command as rules;
ghost use Rattle.streams.specs.Instance.{instance_of, opening_of, task_of, tasks_to, written};
ghost use Rattle.streams.specs.Write as writing;
ghost use Rattle.words.specs.Kept.{order_base, next_in};
ghost use Rattle.words.specs.Layout.{entries};
ghost use Rattle.words.specs.Views.{part};
ghost use Rattle.words.specs.Contents.{contents};
ghost use Rattle.answer.specs.Meaning.{plan_of, wrote_of};
ghost use Rattle.answer.specs.Told.{told_count};
ghost use Rattle.answer.specs.ValidPlan.{ValidPlan};
ghost use Rattle.put.specs.Pages.{Puts};
ghost use Rattle.writer.specs.Writing.{WholePlan, WholeTask, OrderAt};

use cells::Cells;
use codec::{Command, encode};
use put::Page;
use refusal::Refusal;
use words::order::Order;
use words::phase::Phase;
use words::plan::Plan;

// Whether a plan was opened and "both orders are complete".
fn is_whole(plan: &Plan) -> bool
    requires { ValidPlan plan.now.words }
    ensures { result ≡ writing.is_whole (plan_of plan.now.words) }
{
    !plan.is_in(Phase::Empty)
        && plan.is_complete(Order::Activation)
        && plan.is_complete(Order::Execution)
}

// PLAN, at the head of the page.
fn write_opening(plan: &Plan, page: &mut Page)
    requires { WholePlan plan.now.words }
    ensures { Puts (rules.bytes (opening_of (instance_of (plan_of plan.now.words)))) page.old page.new }
{
    let n = plan.cell(Plan::HEAD, Plan::SIZE) as u16;
    let p = plan.cell(Plan::HEAD, Plan::PROCESSORS) as u8;
    let bound = plan.cell(Plan::HEAD, Plan::CHILLED + Plan::BOUND);
    encode(Command::Plan { n, p, bound }, page);
}

// STEP of a task.
fn write_task(plan: &Plan, task: usize, page: &mut Page)
    requires { WholeTask plan.now.words task }
    ensures { Puts (rules.bytes (task_of (instance_of (plan_of plan.now.words)) task)) page.old page.new }
{
    let parent = plan.cell(task, Plan::PARENT) as u16;
    let work = plan.cell(task, Plan::CHILLED + Plan::WORK) as u16;
    let out = plan.cell(task, Plan::CHILLED + Plan::OUT) as u16;
    encode(Command::Task { parent, work, out }, page);
}

// All tasks, by their numbers.
fn write_tasks(plan: &Plan, page: &mut Page)
    requires { WholePlan plan.now.words }
    ensures { Puts (flat_map rules.bytes (tasks_to (instance_of (plan_of plan.now.words)) (plan_of plan.now.words).size))
        page.old page.new }
{
    let n = plan.cell(Plan::HEAD, Plan::SIZE) as usize;
    for task in 1..n + 1 {
        write_task(plan, task, page);
    }
}

// 03 or 04, by the order that a task is the next of.
fn write_entry(order: Order, task: u16, page: &mut Page)
    ensures { Puts (rules.bytes (next_in order task)) page.old page.new }
{
    match order {
        Order::Activation => encode(Command::Activation(task), page),
        Order::Execution => encode(Command::Execution(task), page),
    }
}

// All entries of an order.
fn write_order(plan: &Plan, order: Order, page: &mut Page)
    requires { OrderAt (order_base order) plan.now.words }
    ensures { Puts (flat_map rules.bytes (map (next_in order) (take (contents plan.now.words).size (part (order_base order) entries plan.now.words))))
        page.old page.new }
{
    let n = plan.cell(Plan::HEAD, Plan::SIZE) as usize;
    for k in 0..n {
        let task = plan.entry(order.base(), k) as u16;
        write_entry(order, task, page);
    }
}

// The four parts, one behind another.
fn write_whole(plan: &Plan, page: &mut Page)
    requires { WholePlan plan.now.words }
    ensures { Puts (written (instance_of (plan_of plan.now.words))) page.old page.new }
{
    write_opening(plan, page);
    write_tasks(plan, page);
    write_order(plan, Order::Activation, page);
    write_order(plan, Order::Execution, page);
}

// "3 unless both orders are complete; then 11 if the list is shorter than 8 + 13 times n bytes; either
// leaves the list untouched"
pub fn write(plan: &Plan, list: &mut [u8]) -> Result<usize, Refusal>
    requires { ValidPlan plan.now.words }
    ensures { wrote_of (told_count result) list.new ≡ writing.write (plan_of plan.now.words) list.old }
{
    if !is_whole(plan) {
        return Err(Refusal::OutOfTurn);
    }
    let n = plan.cell(Plan::HEAD, Plan::SIZE) as usize;
    if list.len() < Plan::OPENING_BYTES + Plan::TASK_BYTES * n {
        return Err(Refusal::ShortList);
    }
    let mut page = Page::new(list, 0);
    write_whole(plan, &mut page);
    Ok(page.place())
}
