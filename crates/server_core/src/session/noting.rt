//! The facts of a packet are noted.
ghost use Rattle.std.specs.Prelude.{◌≡◌};
ghost use Rattle.rpc_base.specs.declared.event.Event;
ghost use Rattle.rpc_base.specs.declared.owner.Owner;
ghost use Rattle.rpc_outside.specs.Recording.{Grew};
ghost use Rattle.server_core.specs.Noting.{last_facts, ran_facts};

use super::ServerSession;
use crate::step::Step;
use packet_header::MessageHeader;
use rpc_base::{Event, Owner, Who};
use rpc_outside::Recorder;

impl ServerSession {
    // Notes the last facts of a step.
    pub(super) fn note<R: Recorder>(
        &self,
        head: &MessageHeader,
        step: &Step,
        who: &Who,
        rec: &mut R,
    )
        ensures { Grew (R.log rec.old) (R.log rec.new)
            (last_facts who.now self.now.number head.now step.now) }
    {
        match step {
            Step::Took { reply: _ } => {
                rec.note(*who, self.took(head), &[], &[]);
                rec.note(*who, self.posted(head), &[], &[]);
            }
            Step::Again { reply: _ } => {
                rec.note(*who, self.answered_again(head), &[], &[]);
                rec.note(*who, self.posted(head), &[], &[]);
            }
            Step::Ran { reply: _ } => {
                rec.note(*who, self.posted(head), &[], &[]);
            }
            Step::Give(_) => {
                rec.note(*who, self.took(head), &[], &[]);
                rec.note(*who, self.given(head), &[], &[]);
            }
            Step::Dropped(reason) => rec.note(*who, Event::Dropped { reason: *reason }, &[], &[]),
        }
    }

    // Notes that the last packet of a request was taken and that its handler ran, with the bytes of
    // both messages.
    pub(super) fn note_ran<R: Recorder>(
        &self,
        head: &MessageHeader,
        ask: &[u8],
        answer: &[u8],
        who: &Who,
        rec: &mut R,
    )
        ensures { Grew (R.log rec.old) (R.log rec.new)
            (ran_facts who.now self.now.number head.now ask.now answer.now) }
    {
        rec.note(*who, self.took(head), &[], &[]);
        rec.note(*who, self.ran(head), ask, answer);
    }

    // Whose packets the replies to the request of a packet are.
    pub(super) fn owner_of(&self, head: &MessageHeader) -> Owner
        ensures { result ≡ Owner.Reply self.now.number head.now.request }
    {
        Owner::Reply {
            session: self.number,
            request: head.request,
        }
    }

    fn took(&self, head: &MessageHeader) -> Event
        ensures { result ≡ Event.Took (Owner.Reply self.now.number head.now.request)
            head.now.number }
    {
        Event::Took {
            owner: self.owner_of(head),
            number: head.number,
        }
    }

    fn answered_again(&self, head: &MessageHeader) -> Event
        ensures { result ≡ Event.Again (Owner.Reply self.now.number head.now.request)
            head.now.number }
    {
        Event::Again {
            owner: self.owner_of(head),
            number: head.number,
        }
    }

    fn posted(&self, head: &MessageHeader) -> Event
        ensures { result ≡ Event.Posted (Owner.Reply self.now.number head.now.request)
            head.now.number }
    {
        Event::Posted {
            owner: self.owner_of(head),
            number: head.number,
        }
    }

    fn ran(&self, head: &MessageHeader) -> Event
        ensures { result ≡ Event.Ran self.now.number head.now.request head.now.req_type }
    {
        Event::Ran {
            session: self.number,
            request: head.request,
            req_type: head.req_type,
        }
    }

    fn given(&self, head: &MessageHeader) -> Event
        ensures { result ≡ Event.Given self.now.number head.now.request }
    {
        Event::Given {
            session: self.number,
            request: head.request,
        }
    }
}
