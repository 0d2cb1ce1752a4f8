// FETCH: the trolley is fetched.
ghost use Rattle.std.specs.Prelude.{◌≡◌};
ghost use Rattle.format.specs.Command as rules;
ghost use Rattle.rules.specs.Phase as phases;
ghost use Rattle.rules.specs.State.{root_of};
ghost use Rattle.words.specs.Contents.{contents};
ghost use Rattle.answer.specs.Meaning.{plan_of};
ghost use Rattle.answer.specs.Told.{told};
ghost use Rattle.answer.specs.ValidPlan.{ValidPlan, Obeyed};

use answer::Accepted;
use cells::Cells;
use refusal::Refusal;
use store::Store;
use words::phase::Phase;
use words::plan::Plan;

// The root: in the activation order each task stands before its parent, so it is the last.
fn root(plan: &Plan) -> usize
    requires { ValidPlan plan.now.words × ((contents plan.now.words).phase ≡ phases.ready) }
    ensures { result ≡ root_of (plan_of plan.now.words) }
{
    let size = plan.cell(Plan::HEAD, Plan::SIZE) as usize;
    plan.entry(Plan::ACTIVATION, size - 1) as usize
}

// "FETCH, without operands, frees it and leads to over."
pub fn fetch(plan: &mut Plan, used: usize) -> Result<Accepted, Refusal>
    requires { ValidPlan plan.old.words }
    ensures { Obeyed plan.old.words rules.fetch used (told result) plan.new.words }
{
    if !plan.is_in(Phase::Ready) {
        return Err(Refusal::OutOfTurn);
    }
    let task = root(plan);
    Store::CHILLED.hold_alone(plan, task, 0);
    plan.set_phase(Phase::Over);
    Ok(Accepted::plain(used))
}
