// The survey of a plan's activation order, and the figures that its day begins with.
#![tactic(auto)]

mod checks;
mod figures;
mod level;

ghost use Rattle.std.specs.Prelude.{◌≡◌};
ghost use Rattle.refusal.specs.Number.{number_in};
ghost use Rattle.words.specs.Contents.{contents};
ghost use Rattle.survey.specs.Survey.{Ordered, ground_of, peaked_of, peak_told};

use cells::Cells;
pub use checks::roots;
pub use figures::prepare;
pub use level::Peaked;
use refusal::Refusal;
use store::Store;
use words::plan::Plan;

// Grounds 7 and 8 against the activation order of a plan, and its peak with its task where there is
// none.
pub fn survey(plan: &Plan) -> Result<Peaked, Refusal>
    requires { Ordered (contents plan.now.words) }
    ensures { (number_in result ≡ ground_of (contents plan.now.words)) × (peak_told result ≡ peaked_of (contents plan.now.words)) }
{
    let n = plan.cell(Plan::HEAD, Plan::SIZE) as usize;
    checks::ground(plan, n)?;
    Ok(level::peak(plan, Store::CHILLED, n))
}
