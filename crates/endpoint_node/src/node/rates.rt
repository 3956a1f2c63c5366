//! Client sessions get their rates.
ghost use Rattle.node_steps.specs.Wants.{HasPace};
ghost use Rattle.node_steps.specs.Steps.{Steps};
ghost use Rattle.node_steps.specs.Changes.{◌⟶◌};
ghost use Rattle.std.specs.Prelude.{◌≡◌, ◌<◌, false, true, vec_capacity, OnErr};
ghost use Rattle.std.specs.List.{find};
ghost use Rattle.node_steps.specs.Rates.{RatedAs};
ghost use Rattle.rpc_base.specs.Tables.{at_first};
ghost use Rattle.rpc_laws.specs.Groups.{SetsRate, state_of};
ghost use Rattle.rpc_laws.specs.Pacing.{is_pace_of};
ghost use Rattle.rpc_laws.specs.Sessions.{is_client, is_live};

use crate::node::Node;
use rpc_base::{Event, SessionNo, SessionState, Who};
use rpc_laws::Pace;
use rpc_outside::Recorder;

// Whether a session in this state has a server that it may yet call or close.
pub(super) fn lives(state: SessionState) -> bool
    ensures { result ≡ is_live state }
{
    match state {
        SessionState::Connecting => true,
        SessionState::Connected => true,
        SessionState::Spent => true,
        SessionState::Closing => true,
        _ => false,
    }
}

// Session `i` has this rate from now on.
fn set_rate_at(paces: &mut Vec<Pace>, i: usize, rate: u32)
    requires { HasPace i paces.old.items }
    ensures rated { paces.new.items
        ≡ at_first (is_pace_of i) (λ p. record p { rate = rate }) paces.old.items }
    ensures room { vec_capacity paces.new ≡ vec_capacity paces.old }
{
    let pace = &mut paces[i];
    pace.rate = rate;
}

impl Node {
    /// Sets the rate of a client session, in bytes per millisecond: its packets are paced from now
    /// on, or not where it is 0. Those that are queued keep their times. Err comes exactly where
    /// the session isn't live, with its state, and then nothing changed.
    pub fn set_rate<R: Recorder>(
        &mut self,
        session: SessionNo,
        rate: u32,
        rec: &mut R,
    ) -> Result<(), SessionState>
        ensures step { Steps R.log (SetsRate session rate) (self.old ⟶ self.new)
            (rec.old ⟶ rec.new) }
        ensures rated { RatedAs (state_of (find (is_client session) self.old.lists.clients))
            result }
        ensures unchanged { OnErr result (self.new ≡ self.old) }
    {
        let state = self.state(session);
        if !lives(state) {
            rec.note(
                Who::Node(self.me),
                Event::Nrate { session, state },
                &[],
                &[],
            );
            return Err(state);
        }
        set_rate_at(&mut self.paces, usize::from(session.0), rate);
        rec.note(Who::Node(self.me), Event::Rated { session, rate }, &[], &[]);
        Ok(())
    }
}
