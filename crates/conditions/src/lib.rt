// The power conditions of a drive and their order in falling power.
#![tactic(auto)]

ghost use Rattle.std.specs.Prelude.{◌≡◌, ◌<◌};
ghost use Rattle.conditions.specs.Conditions.{place_of, condition_at, depth};

// The five conditions, in falling power.
#[derive(Clone, Copy, PartialEq, Eq)]
pub enum Condition {
    IdleA,
    IdleB,
    IdleC,
    StandbyY,
    StandbyZ,
}

// What brought the drive below Active.
#[derive(Clone, Copy, PartialEq, Eq)]
pub enum Cause {
    Timer,
    Command,
}

// Active has no cause: the type keeps that clause of "well formed".
// Stays an enum of its own: Active is a state with a name of its own, and not nothing.
#[derive(Clone, Copy, PartialEq, Eq)]
pub enum Power {
    Active,
    Low(Condition, Cause),
}

// "In falling power" (document 01): place 0 is Idle_A, place 4 Standby_z.
const FALLING: [Condition; 5] = [
    Condition::IdleA,
    Condition::IdleB,
    Condition::IdleC,
    Condition::StandbyY,
    Condition::StandbyZ,
];

// The variants stand in that order, so that a condition's number is its place.
pub fn place_of(c: Condition) -> usize
    ensures { (result ≡ place_of c) × (result < 5) }
{
    c as usize
}

pub fn condition_at(place: usize) -> Condition
    requires { place < 5 }
    ensures { result ≡ condition_at place }
{
    FALLING[place]
}

pub fn depth_of(p: Power) -> usize
    ensures { result ≡ depth p }
{
    match p {
        Power::Active => 0,
        Power::Low(c, _) => place_of(c) + 1,
    }
}
