// An embedder in Rattle, the example of docs/EMBEDDING.md: what a new plan answers to one command.
#![tactic(auto)]

ghost use Rattle.std.specs.Prelude.{◌≡◌, replicate};
ghost use Rattle.numbers.specs.Limits.{least_starts};
ghost use Rattle.rules.specs.State.{none};
ghost use Rattle.rules.specs.Answer as rules;
ghost use Rattle.answer.specs.Meaning.{answer_of};
ghost use Rattle.answer.specs.Told.{told};

use answer::Accepted;
use plan::command;
use refusal::Refusal;
use words::plan::Plan;

pub fn first_answer(bytes: &[u8], place: usize) -> Result<Accepted, Refusal>
    ensures { answer_of (told result) ≡ (rules.command none (record { stream = bytes.now; place = place; list = replicate least_starts 0 })).answer }
{
    let mut plan = Plan::new();
    let mut starts = [0u16; Plan::LEAST_STARTS];
    command(&mut plan, bytes, place, &mut starts)
}
