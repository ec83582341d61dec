ghost use Rattle.std.specs.Prelude.{◌≡◌, MatchOption};

use caption_streams::{Building, Receiving, Verifying};

/// What an open handle holds.
#[derive(Drop)]
pub enum State {
    /// A builder.
    Building(Building),
    /// A receiver.
    Receiving(Receiving),
    /// A verifier.
    Verifying(Verifying),
}

impl State {
    ghost use Rattle.ccsuite_c.specs.States.{IsNoBuilder, IsNoReceiver, IsNoVerifier};
    ghost use Rattle.ccsuite_c.specs.declared.state.State.TheVariants as held;

    /// The builder, if it is one.
    pub(crate) fn building(&self) -> Option<&Building>
        ensures { MatchOption result (IsNoBuilder self.now)
            (λ b. self.now ≡ held.Building b.now) }
    {
        match self {
            State::Building(building) => Some(building),
            _ => None,
        }
    }

    /// The receiver, if it is one.
    pub(crate) fn receiving(&self) -> Option<&Receiving>
        ensures { MatchOption result (IsNoReceiver self.now)
            (λ r. self.now ≡ held.Receiving r.now) }
    {
        match self {
            State::Receiving(receiving) => Some(receiving),
            _ => None,
        }
    }

    /// The verifier, if it is one.
    pub(crate) fn verifying(&self) -> Option<&Verifying>
        ensures { MatchOption result (IsNoVerifier self.now)
            (λ v. self.now ≡ held.Verifying v.now) }
    {
        match self {
            State::Verifying(verifying) => Some(verifying),
            _ => None,
        }
    }
}
