// 03 and 04: the next task in the activation order, and in the execution order; and the execution order that BEGIN
// makes where no 04 was given.
#![tactic(auto)]

ghost use Rattle.std.specs.Prelude.{◌≡◌, true, take};
ghost use Rattle.refusal.specs.Number.{number_in};
ghost use Rattle.numbers.specs.Lists.{mem};
ghost use Rattle.words.specs.Layout.{entries};
ghost use Rattle.words.specs.Kept.{counted_word, order_base, place_column, next_in};
ghost use Rattle.words.specs.Views.{part};
ghost use Rattle.format.specs.Command as rules;
ghost use Rattle.rules.specs.Grounds.{in_turn};
ghost use Rattle.streams.specs.OneOrder.{one_order};
ghost use Rattle.answer.specs.Meaning.{plan_of};
ghost use Rattle.answer.specs.ValidPlan.{ValidPlan, Obeyed};
ghost use Rattle.answer.specs.Told.{told};
ghost use Rattle.ordering.specs.Order.{Sought, OrderAt, ground_at, MayAppend, appended_to};
ghost use Rattle.ordering.specs.Completed.{Completed};

use answer::Accepted;
use cells::Cells;
use measure::is_within;
use refusal::Refusal;
use words::order::Order;
use words::phase::Phase;
use words::plan::Plan;

// "the step is already in that order": its noted place is one of the first `count`, and the order
// has it there. What is noted for a task outside the order may be any number.
fn contains(plan: &Plan, order: Order, count: usize, task: usize) -> bool
    requires { Sought (order_base order) (place_column order) count task plan.now.words }
    ensures { result ≡ mem task (take count (part (order_base order) entries plan.now.words)) }
{
    let place = plan.cell(task, order.column()) as usize;
    if count <= place {
        return false;
    }
    plan.entry(order.base(), place) as usize == task
}

// The ground against one task more in an order.
fn may_append(plan: &Plan, order: Order, task: usize) -> Result<(), Refusal>
    requires { OrderAt (counted_word order) (order_base order) (place_column order) plan.now.words }
    ensures { number_in result ≡ ground_at (counted_word order) (order_base order) plan.now.words task }
{
    if !plan.is_in(Phase::Orders) {
        return Err(Refusal::OutOfTurn);
    }
    let size = plan.cell(Plan::HEAD, Plan::SIZE) as usize;
    let count = plan.cell(Plan::HEAD, order.counted()) as usize;
    if size <= count {
        return Err(Refusal::OutOfTurn);
    }
    if !is_within(task, size) {
        return Err(Refusal::OutsideLimits);
    }
    if contains(plan, order, count, task) {
        return Err(Refusal::Repeated);
    }
    Ok(())
}

// One task more in an order, with its place.
fn write_next(plan: &mut Plan, order: Order, task: u32)
    requires { MayAppend (counted_word order) (order_base order) (place_column order) task plan.old.words }
    ensures { plan.new.words ≡ appended_to (counted_word order) (order_base order) (place_column order) plan.old.words task }
{
    let count = plan.cell(Plan::HEAD, order.counted());
    plan.set_entry(order.base(), count as usize, task);
    plan.set_cell(task as usize, order.column(), count);
    plan.set_cell(Plan::HEAD, order.counted(), count + 1);
}

// 03 and 04: the next task in an order.
pub fn append(plan: &mut Plan, order: Order, task: u16, used: usize) -> Result<Accepted, Refusal>
    requires { ValidPlan plan.old.words }
    ensures { Obeyed plan.old.words (next_in order task) used (told result) plan.new.words }
{
    may_append(plan, order, task as usize)?;
    write_next(plan, order, task as u32);
    Ok(Accepted::plain(used))
}

// 04 for each entry of the activation order.
fn copy_activation(plan: &mut Plan)
    requires { ValidPlan plan.old.words × (one_order (plan_of plan.old.words) ≡ true) }
    ensures { Completed plan.old.words plan.new.words }
{
    let n = plan.cell(Plan::HEAD, Plan::SIZE) as usize;
    for k in 0..n {
        let task = plan.entry(Order::Activation.base(), k);
        write_next(plan, Order::Execution, task);
    }
}

// What BEGIN goes on with: "the activation order used for both" where no 04 was given.
pub fn complete(plan: &mut Plan)
    requires { ValidPlan plan.old.words × (in_turn (plan_of plan.old.words) rules.begin ≡ true) }
    ensures { Completed plan.old.words plan.new.words }
{
    if plan.cell(Plan::HEAD, Plan::PLACED) == 0 {
        copy_activation(plan);
    }
}
