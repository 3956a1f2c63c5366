//! Client sessions send their own requests: to connect, and to disconnect.
ghost use Rattle.node_steps.specs.Wants.{StandsIn};
ghost use Rattle.node_steps.specs.Steps.{StepsSpoken, Steps};
ghost use Rattle.node_steps.specs.Changes.{◌⟶◌};
ghost use Rattle.std.specs.Prelude.{◌≡◌, ◌<◌, false, length, slice_get, IfSome, Some};
ghost use Rattle.node_steps.specs.Links.{GivesUpAt, SendsRequest};
ghost use Rattle.rpc_base.specs.declared.event.Event.TheVariants.{ClosedUnheard, FailedNoAnswer};
ghost use Rattle.rpc_base.specs.declared.state.SessionState.TheVariants.{Closing, Connecting};
ghost use Rattle.rpc_laws.specs.ControlSteps.{Retries, own_request, retry_row};
ghost use Rattle.rpc_laws.specs.Steps.{NotesNext};

use crate::link::speak;
use endpoint_node::Node;
use node_steps::Asking;
use packet_header::ControlHeader;
use rpc_base::{Event, SessionNo, SessionState, Who};
use rpc_laws::RetryRow;
use rpc_outside::{Link, Recorder};

// Session `i`, which is Connecting, failed, since no answer came to its request.
fn fail_unanswered<R: Recorder>(node: &mut Node, i: usize, rec: &mut R)
    requires { StandsIn Connecting i node.old }
    ensures { Steps R.log (NotesNext (λ s. Some (FailedNoAnswer i))) (node.old ⟶ node.new)
        (rec.old ⟶ rec.new) }
{
    node.store.failed(i);
    let session = SessionNo(i as u16);
    let event = Event::FailedNoAnswer { session };
    rec.note(Who::Node(node.me), event, &[], &[]);
}

// Session `i`, which is Closing, is closed, though no answer came to its request.
fn close_unheard<R: Recorder>(node: &mut Node, i: usize, rec: &mut R)
    requires { StandsIn Closing i node.old }
    ensures { Steps R.log (NotesNext (λ s. Some (ClosedUnheard i))) (node.old ⟶ node.new)
        (rec.old ⟶ rec.new) }
{
    node.store.closed(i);
    let session = SessionNo(i as u16);
    let event = Event::ClosedUnheard { session };
    rec.note(Who::Node(node.me), event, &[], &[]);
}

// Session `i` gives up, to whose request no answer came.
fn give_up<R: Recorder>(node: &mut Node, i: usize, rec: &mut R)
    requires known { i < length node.old.lists.clients }
    ensures { Steps R.log (GivesUpAt i) (node.old ⟶ node.new) (rec.old ⟶ rec.new) }
{
    match node.store.state(i) {
        SessionState::Connecting => fail_unanswered(node, i, rec),
        SessionState::Closing => close_unheard(node, i, rec),
        _ => {}
    }
}

// Session `i` sends its own request, which has this header and was sent fewer than nine times.
fn send_request<L: Link, R: Recorder>(
    node: &mut Node,
    i: usize,
    head: &ControlHeader,
    link: &mut L,
    rec: &mut R,
) -> Asking
    requires known { i < length node.old.lists.clients }
    requires own { IfSome (slice_get node.old.lists.clients i)
        (λ x. own_request node.old.lists.life x ≡ Some head.now) }
    requires few { IfSome (slice_get node.old.lists.clients i) (λ x. x.sends < 9) }
    ensures { StepsSpoken R.log L.Link (SendsRequest i head.now) result (node.old ⟶ node.new)
        (rec.old ⟶ rec.new) (link.old ⟶ link.new) }
{
    let end = node.store.end_of_client(i);
    match speak(node.me, end.peer, head, link, rec) {
        Ok(true) => {
            node.store.request_sent(i, node.clock);
            Asking {
                sent: 1,
                failed: false,
            }
        }
        Ok(false) => Asking {
            sent: 0,
            failed: false,
        },
        Err(_) => {
            Asking {
                sent: 0,
                failed: true,
            }
        }
    }
}

// What session `i` does about it, with this timeout, in microseconds.
fn retry_row(node: &Node, timeout: u64, i: usize) -> RetryRow
    requires known { i < length node.now.lists.clients }
    ensures { IfSome (slice_get node.now.lists.clients i)
        (λ x. result ≡ retry_row node.now.clock timeout x.sends x.sent_at) }
{
    let sent = node.store.own_requests(i);
    session_mgmt::retry_row(node.clock, timeout, sent.sends, sent.sent_at)
}

// Looks at the own request of session `i`: it is sent in the first poll, and again each time
// that a timeout, in microseconds, has passed; after the ninth time the session gives up.
pub(crate) fn retry<L: Link, R: Recorder>(
    node: &mut Node,
    timeout: u64,
    i: usize,
    link: &mut L,
    rec: &mut R,
) -> Asking
    requires known { i < length node.old.lists.clients }
    ensures { StepsSpoken R.log L.Link (Retries timeout i) result (node.old ⟶ node.new)
        (rec.old ⟶ rec.new) (link.old ⟶ link.new) }
{
    let Some(head) = node.own_request(i) else {
        return Asking {
            sent: 0,
            failed: false,
        };
    };
    match retry_row(node, timeout, i) {
        RetryRow::Rests => Asking {
            sent: 0,
            failed: false,
        },
        RetryRow::Asks => send_request(node, i, &head, link, rec),
        RetryRow::GivesUp => {
            give_up(node, i, rec);
            Asking {
                sent: 0,
                failed: false,
            }
        }
    }
}
