//! What a reply to a client session's own request does at a node, and what the node has of the
//! session.
ghost use Rattle.node_steps.specs.Wants.{StandsIn};
ghost use Rattle.node_steps.specs.Steps.{StepsControl};
ghost use Rattle.node_steps.specs.Changes.{◌⟶◌};
ghost use Rattle.std.specs.Prelude.{◌≡◌, ◌<◌, ◌≤◌, option_map, Some};
ghost use Rattle.std.specs.List.{find};
ghost use Rattle.rpc_base.specs.declared.event.Event.TheVariants.{ClosedHeard, FailedNoRoom};
ghost use Rattle.rpc_base.specs.declared.event.Event.TheVariants.{Connected as IsConnected};
ghost use Rattle.rpc_base.specs.declared.state.SessionState.TheVariants.{Closing, Connecting};
ghost use Rattle.rpc_laws.specs.Sessions.{is_client};
ghost use Rattle.rpc_laws.specs.Steps.{NotesNext};
ghost use Rattle.session_mgmt.specs.Control.{own_end};

use endpoint_node::Node;
use packet_header::Life;
use rpc_base::{Event, SESSION_NUMBERS, SessionNo, Who};
use rpc_outside::Recorder;
use session_mgmt::OwnEnd;

// The client session of a number.
pub(crate) fn own_end(node: &Node, session: SessionNo) -> Option<OwnEnd>
    ensures { result ≡ option_map own_end
        (find (is_client session) node.now.lists.clients) }
{
    let i = usize::from(session.0);
    if node.store.clients() <= i {
        return None;
    }
    let end = node.store.end_of_client(i);
    Some(OwnEnd {
        peer: end.peer,
        state: node.store.state(i),
        credits: end.credits,
        server: end.server,
        life: end.life,
    })
}

// A session that is Connecting is connected with a server session of this life of its node.
pub(crate) fn connect_session<R: Recorder>(
    node: &mut Node,
    session: SessionNo,
    server: SessionNo,
    life: Life,
    rec: &mut R,
)
    requires connecting { StandsIn Connecting session node.old }
    requires server { server < SESSION_NUMBERS }
    requires life { 1 ≤ life }
    ensures { StepsControl R.log (NotesNext (λ s. Some (IsConnected session server life)))
        (node.old ⟶ node.new) (rec.old ⟶ rec.new) }
{
    node.store.connected(usize::from(session.0), server, life);
    let event = Event::Connected {
        session,
        server,
        life: life.0,
    };
    rec.note(Who::Node(node.me), event, &[], &[]);
}

// A session that is Connecting failed, since its peer has no room.
pub(crate) fn fail_session<R: Recorder>(node: &mut Node, session: SessionNo, rec: &mut R)
    requires { StandsIn Connecting session node.old }
    ensures { StepsControl R.log (NotesNext (λ s. Some (FailedNoRoom session)))
        (node.old ⟶ node.new) (rec.old ⟶ rec.new) }
{
    node.store.failed(usize::from(session.0));
    let event = Event::FailedNoRoom { session };
    rec.note(Who::Node(node.me), event, &[], &[]);
}

// A session that is Closing is closed, as its peer told.
pub(crate) fn close_session<R: Recorder>(node: &mut Node, session: SessionNo, rec: &mut R)
    requires { StandsIn Closing session node.old }
    ensures { StepsControl R.log (NotesNext (λ s. Some (ClosedHeard session)))
        (node.old ⟶ node.new) (rec.old ⟶ rec.new) }
{
    node.store.closed(usize::from(session.0));
    let event = Event::ClosedHeard { session };
    rec.note(Who::Node(node.me), event, &[], &[]);
}
