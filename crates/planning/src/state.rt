// The state of a plan's steps: it goes in by value and comes back.
ghost use Rattle.std.specs.Prelude.{◌≡◌};
ghost use Rattle.planning.specs.State.{fresh_state, advanced_by};

use bank::Step;

#[derive(Clone, Copy, Debug, PartialEq, Eq)]
pub struct State {
    pub next: Step,
}

impl State {
    // Nothing is done yet.
    pub fn fresh() -> State
        ensures { result ≡ fresh_state }
    {
        State { next: Step(0) }
    }

    // The same state: a refusal keeps it, and so does a step done again.
    pub fn kept(self) -> State
        ensures { result ≡ self }
    {
        self
    }

    // The state after k new steps, where there is such a number.
    pub fn advanced(mut self, k: u64) -> State
        ensures { result ≡ advanced_by self k }
    {
        if let Some(next) = self.next.0.checked_add(k) {
            self.next = Step(next);
        }
        self
    }
}
