// What a call leaves that tells no more than whether it was done.
#![tactic(auto)]

ghost use Rattle.std.specs.Prelude.{cond, ◌≡◌};
ghost use Rattle.std.specs.Result.{is_err};
ghost use Rattle.unit.specs.declared.Unit.{Unit};
ghost use Rattle.outcomes.specs.Settled.{settled};

use refusals::Refusal;
use unit::Unit;

// Stays an answer beside the record, not a Result that holds it: the record comes back on a refusal too.
#[derive(Clone, Copy)]
pub struct Called {
    pub answer: Result<(), Refusal>,
    pub unit: Unit,
}

// The verdict's answer beside the one record that was built: as it came where a number is given, else what the effect leaves.
pub fn settle(v: Result<(), Refusal>, next: Unit) -> Called
    ensures { (u effect : Unit) → next ≡ cond (is_err v) u effect → result ≡ settled u effect v }
{
    Called {
        answer: v,
        unit: next,
    }
}
