//! The event that the words of a line tell, by the first of them. Word 0 of a line is where it
//! happened.
ghost use Rattle.std.specs.Prelude.{◌≡◌};
ghost use Rattle.report_reader.specs.Telling.{made_in, opened_in, paired_client_in};
ghost use Rattle.report_reader.specs.Telling.{paired_server_in, nconnect_ring_in};
ghost use Rattle.report_reader.specs.Telling.{accepted_in, declined_in, starved_in};
ghost use Rattle.report_reader.specs.Telling.{connected_in, failed_no_room_in};
ghost use Rattle.report_reader.specs.Telling.{failed_no_answer_in, closing_in};
ghost use Rattle.report_reader.specs.Telling.{nclose_state_in, nclose_busy_in};
ghost use Rattle.report_reader.specs.Telling.{closed_heard_in, closed_unheard_in, ended_in};
ghost use Rattle.report_reader.specs.Telling.{broken_in, rated_in, nrate_in, asked_in};
ghost use Rattle.report_reader.specs.Telling.{ncall_too_large_in, ncall_state_in, begun_in};
ghost use Rattle.report_reader.specs.Telling.{posted_in, flushed_in, sent_in, unsent_in};
ghost use Rattle.report_reader.specs.Telling.{arrived_in, overflowed_in, bad_in, took_in};
ghost use Rattle.report_reader.specs.Telling.{again_in, dropped_in, given_in, worked_in};
ghost use Rattle.report_reader.specs.Telling.{ran_in, rolled_in, done_ok_in};
ghost use Rattle.report_reader.specs.Telling.{done_too_small_in, done_peer_lost_in};
ghost use Rattle.report_reader.specs.Telling.{polled_in, missed_in, carried_in, lost_in};
ghost use Rattle.report_reader.specs.Telling.{repeated_in, restarted_in, ticked_in};
ghost use Rattle.report_reader.specs.Words.{words_of};

use crate::numbers::{
    call_at, half_at, number_at, owner_at, peer_at, request_at, session_at, small_at,
    word_number_at,
};
use crate::words::{reason_at, state_at};
use rpc_base::Event;

/// `made ring ring`.
#[tactic(auto, unfolding(crate::specs::Telling::made_in))]
pub fn made(line: &[u8]) -> Option<Event>
    ensures { result ≡ made_in (words_of line.now) }
{
    let ring = word_number_at(line, 3)?;
    Some(Event::Made { ring })
}

/// `restarted life`.
#[tactic(auto, unfolding(crate::specs::Telling::restarted_in))]
pub fn restarted(line: &[u8]) -> Option<Event>
    ensures { result ≡ restarted_in (words_of line.now) }
{
    let life = word_number_at(line, 2)?;
    Some(Event::Restarted { life })
}

/// `opened session peer peer credits credits`.
#[tactic(auto, unfolding(crate::specs::Telling::opened_in))]
pub fn opened(line: &[u8]) -> Option<Event>
    ensures { result ≡ opened_in (words_of line.now) }
{
    let session = session_at(line, 2)?;
    let peer = peer_at(line, 4)?;
    let credits = half_at(line, 6)?;
    Some(Event::Opened {
        session,
        peer,
        credits,
    })
}

/// `paired client session peer peer with server credits credits life life`.
#[tactic(auto, unfolding(crate::specs::Telling::paired_client_in))]
pub fn paired_client(line: &[u8]) -> Option<Event>
    ensures { result ≡ paired_client_in (words_of line.now) }
{
    let session = session_at(line, 3)?;
    let peer = peer_at(line, 5)?;
    let server = session_at(line, 7)?;
    let credits = half_at(line, 9)?;
    let life = word_number_at(line, 11)?;
    Some(Event::PairedClient {
        session,
        peer,
        server,
        credits,
        life,
    })
}

/// `paired server session peer peer with client credits credits life life`.
#[tactic(auto, unfolding(crate::specs::Telling::paired_server_in))]
pub fn paired_server(line: &[u8]) -> Option<Event>
    ensures { result ≡ paired_server_in (words_of line.now) }
{
    let session = session_at(line, 3)?;
    let peer = peer_at(line, 5)?;
    let client = session_at(line, 7)?;
    let credits = half_at(line, 9)?;
    let life = word_number_at(line, 11)?;
    Some(Event::PairedServer {
        session,
        peer,
        client,
        credits,
        life,
    })
}

/// `nconnect ring shares credits ring`.
#[tactic(auto, unfolding(crate::specs::Telling::nconnect_ring_in))]
pub fn nconnect_ring(line: &[u8]) -> Option<Event>
    ensures { result ≡ nconnect_ring_in (words_of line.now) }
{
    let shares = word_number_at(line, 3)?;
    let credits = word_number_at(line, 4)?;
    let ring = word_number_at(line, 5)?;
    Some(Event::NconnectRing {
        shares,
        credits,
        ring,
    })
}

/// `accepted session peer peer for client credits credits life life`.
#[tactic(auto, unfolding(crate::specs::Telling::accepted_in))]
pub fn accepted(line: &[u8]) -> Option<Event>
    ensures { result ≡ accepted_in (words_of line.now) }
{
    let session = session_at(line, 2)?;
    let peer = peer_at(line, 4)?;
    let client = session_at(line, 6)?;
    let credits = half_at(line, 8)?;
    let life = word_number_at(line, 10)?;
    Some(Event::Accepted {
        session,
        peer,
        client,
        credits,
        life,
    })
}

/// `declined peer peer for client credits credits`.
#[tactic(auto, unfolding(crate::specs::Telling::declined_in))]
pub fn declined(line: &[u8]) -> Option<Event>
    ensures { result ≡ declined_in (words_of line.now) }
{
    let peer = peer_at(line, 3)?;
    let client = session_at(line, 5)?;
    let credits = half_at(line, 7)?;
    Some(Event::Declined {
        peer,
        client,
        credits,
    })
}

/// `starved peer peer for client credits credits`.
#[tactic(auto, unfolding(crate::specs::Telling::starved_in))]
pub fn starved(line: &[u8]) -> Option<Event>
    ensures { result ≡ starved_in (words_of line.now) }
{
    let peer = peer_at(line, 3)?;
    let client = session_at(line, 5)?;
    let credits = half_at(line, 7)?;
    Some(Event::Starved {
        peer,
        client,
        credits,
    })
}

/// `connected session with server life life`.
#[tactic(auto, unfolding(crate::specs::Telling::connected_in))]
pub fn connected(line: &[u8]) -> Option<Event>
    ensures { result ≡ connected_in (words_of line.now) }
{
    let session = session_at(line, 2)?;
    let server = session_at(line, 4)?;
    let life = word_number_at(line, 6)?;
    Some(Event::Connected {
        session,
        server,
        life,
    })
}

/// `failed session noroom`.
#[tactic(auto, unfolding(crate::specs::Telling::failed_no_room_in))]
pub fn failed_no_room(line: &[u8]) -> Option<Event>
    ensures { result ≡ failed_no_room_in (words_of line.now) }
{
    let session = session_at(line, 2)?;
    Some(Event::FailedNoRoom { session })
}

/// `failed session noanswer`.
#[tactic(auto, unfolding(crate::specs::Telling::failed_no_answer_in))]
pub fn failed_no_answer(line: &[u8]) -> Option<Event>
    ensures { result ≡ failed_no_answer_in (words_of line.now) }
{
    let session = session_at(line, 2)?;
    Some(Event::FailedNoAnswer { session })
}

/// `closing session`.
#[tactic(auto, unfolding(crate::specs::Telling::closing_in))]
pub fn closing(line: &[u8]) -> Option<Event>
    ensures { result ≡ closing_in (words_of line.now) }
{
    let session = session_at(line, 2)?;
    Some(Event::Closing { session })
}

/// `nclose session state`.
#[tactic(auto, unfolding(crate::specs::Telling::nclose_state_in))]
pub fn nclose_state(line: &[u8]) -> Option<Event>
    ensures { result ≡ nclose_state_in (words_of line.now) }
{
    let session = session_at(line, 2)?;
    let state = state_at(line, 3)?;
    Some(Event::NcloseState { session, state })
}

/// `nclose session busy calls`.
#[tactic(auto, unfolding(crate::specs::Telling::nclose_busy_in))]
pub fn nclose_busy(line: &[u8]) -> Option<Event>
    ensures { result ≡ nclose_busy_in (words_of line.now) }
{
    let session = session_at(line, 2)?;
    let calls = number_at(line, 4)?;
    Some(Event::NcloseBusy { session, calls })
}

/// `closed session heard`.
#[tactic(auto, unfolding(crate::specs::Telling::closed_heard_in))]
pub fn closed_heard(line: &[u8]) -> Option<Event>
    ensures { result ≡ closed_heard_in (words_of line.now) }
{
    let session = session_at(line, 2)?;
    Some(Event::ClosedHeard { session })
}

/// `closed session unheard`.
#[tactic(auto, unfolding(crate::specs::Telling::closed_unheard_in))]
pub fn closed_unheard(line: &[u8]) -> Option<Event>
    ensures { result ≡ closed_unheard_in (words_of line.now) }
{
    let session = session_at(line, 2)?;
    Some(Event::ClosedUnheard { session })
}

/// `ended session`.
#[tactic(auto, unfolding(crate::specs::Telling::ended_in))]
pub fn ended(line: &[u8]) -> Option<Event>
    ensures { result ≡ ended_in (words_of line.now) }
{
    let session = session_at(line, 2)?;
    Some(Event::Ended { session })
}

/// `broken session`.
#[tactic(auto, unfolding(crate::specs::Telling::broken_in))]
pub fn broken(line: &[u8]) -> Option<Event>
    ensures { result ≡ broken_in (words_of line.now) }
{
    let session = session_at(line, 2)?;
    Some(Event::Broken { session })
}

/// `rated session rate`.
#[tactic(auto, unfolding(crate::specs::Telling::rated_in))]
pub fn rated(line: &[u8]) -> Option<Event>
    ensures { result ≡ rated_in (words_of line.now) }
{
    let session = session_at(line, 2)?;
    let rate = word_number_at(line, 3)?;
    Some(Event::Rated { session, rate })
}

/// `nrate session state`.
#[tactic(auto, unfolding(crate::specs::Telling::nrate_in))]
pub fn nrate(line: &[u8]) -> Option<Event>
    ensures { result ≡ nrate_in (words_of line.now) }
{
    let session = session_at(line, 2)?;
    let state = state_at(line, 3)?;
    Some(Event::Nrate { session, state })
}

/// `asked call on session type req_type room room *`.
#[tactic(auto, unfolding(crate::specs::Telling::asked_in))]
pub fn asked(line: &[u8]) -> Option<Event>
    ensures { result ≡ asked_in (words_of line.now) }
{
    let call = call_at(line, 2)?;
    let session = session_at(line, 4)?;
    let req_type = small_at(line, 6)?;
    let room = word_number_at(line, 8)?;
    Some(Event::Asked {
        call,
        session,
        req_type,
        room,
    })
}

/// `ncall session toolarge len`.
#[tactic(auto, unfolding(crate::specs::Telling::ncall_too_large_in))]
pub fn ncall_too_large(line: &[u8]) -> Option<Event>
    ensures { result ≡ ncall_too_large_in (words_of line.now) }
{
    let session = session_at(line, 2)?;
    let len = word_number_at(line, 4)?;
    Some(Event::NcallTooLarge { session, len })
}

/// `ncall session state`.
#[tactic(auto, unfolding(crate::specs::Telling::ncall_state_in))]
pub fn ncall_state(line: &[u8]) -> Option<Event>
    ensures { result ≡ ncall_state_in (words_of line.now) }
{
    let session = session_at(line, 2)?;
    let state = state_at(line, 3)?;
    Some(Event::NcallState { session, state })
}

/// `begun call as request`.
#[tactic(auto, unfolding(crate::specs::Telling::begun_in))]
pub fn begun(line: &[u8]) -> Option<Event>
    ensures { result ≡ begun_in (words_of line.now) }
{
    let call = call_at(line, 2)?;
    let request = request_at(line, 4)?;
    Some(Event::Begun { call, request })
}

/// `posted owner number`.
#[tactic(auto, unfolding(crate::specs::Telling::posted_in))]
pub fn posted(line: &[u8]) -> Option<Event>
    ensures { result ≡ posted_in (words_of line.now) }
{
    let owner = owner_at(line, 2)?;
    let number = half_at(line, 5)?;
    Some(Event::Posted { owner, number })
}

/// `flushed owner number`.
#[tactic(auto, unfolding(crate::specs::Telling::flushed_in))]
pub fn flushed(line: &[u8]) -> Option<Event>
    ensures { result ≡ flushed_in (words_of line.now) }
{
    let owner = owner_at(line, 2)?;
    let number = half_at(line, 5)?;
    Some(Event::Flushed { owner, number })
}

/// `sent peer owner number * *`.
#[tactic(auto, unfolding(crate::specs::Telling::sent_in))]
pub fn sent(line: &[u8]) -> Option<Event>
    ensures { result ≡ sent_in (words_of line.now) }
{
    let peer = peer_at(line, 2)?;
    let owner = owner_at(line, 3)?;
    let number = half_at(line, 6)?;
    Some(Event::Sent {
        peer,
        owner,
        number,
    })
}

/// `unsent peer *`.
#[tactic(auto, unfolding(crate::specs::Telling::unsent_in))]
pub fn unsent(line: &[u8]) -> Option<Event>
    ensures { result ≡ unsent_in (words_of line.now) }
{
    let peer = peer_at(line, 2)?;
    Some(Event::Unsent { peer })
}

/// `arrived peer *`.
#[tactic(auto, unfolding(crate::specs::Telling::arrived_in))]
pub fn arrived(line: &[u8]) -> Option<Event>
    ensures { result ≡ arrived_in (words_of line.now) }
{
    let peer = peer_at(line, 2)?;
    Some(Event::Arrived { peer })
}

/// `overflowed peer *`.
#[tactic(auto, unfolding(crate::specs::Telling::overflowed_in))]
pub fn overflowed(line: &[u8]) -> Option<Event>
    ensures { result ≡ overflowed_in (words_of line.now) }
{
    let peer = peer_at(line, 2)?;
    Some(Event::Overflowed { peer })
}

/// `bad peer *`.
#[tactic(auto, unfolding(crate::specs::Telling::bad_in))]
pub fn bad(line: &[u8]) -> Option<Event>
    ensures { result ≡ bad_in (words_of line.now) }
{
    let peer = peer_at(line, 2)?;
    Some(Event::Bad { peer })
}

/// `took owner number`.
#[tactic(auto, unfolding(crate::specs::Telling::took_in))]
pub fn took(line: &[u8]) -> Option<Event>
    ensures { result ≡ took_in (words_of line.now) }
{
    let owner = owner_at(line, 2)?;
    let number = half_at(line, 5)?;
    Some(Event::Took { owner, number })
}

/// `again owner number`.
#[tactic(auto, unfolding(crate::specs::Telling::again_in))]
pub fn again(line: &[u8]) -> Option<Event>
    ensures { result ≡ again_in (words_of line.now) }
{
    let owner = owner_at(line, 2)?;
    let number = half_at(line, 5)?;
    Some(Event::Again { owner, number })
}

/// `dropped reason`.
#[tactic(auto, unfolding(crate::specs::Telling::dropped_in))]
pub fn dropped(line: &[u8]) -> Option<Event>
    ensures { result ≡ dropped_in (words_of line.now) }
{
    let reason = reason_at(line, 2)?;
    Some(Event::Dropped { reason })
}

/// `given session request`.
#[tactic(auto, unfolding(crate::specs::Telling::given_in))]
pub fn given(line: &[u8]) -> Option<Event>
    ensures { result ≡ given_in (words_of line.now) }
{
    let session = session_at(line, 2)?;
    let request = request_at(line, 3)?;
    Some(Event::Given { session, request })
}

/// `worked session request`.
#[tactic(auto, unfolding(crate::specs::Telling::worked_in))]
pub fn worked(line: &[u8]) -> Option<Event>
    ensures { result ≡ worked_in (words_of line.now) }
{
    let session = session_at(line, 2)?;
    let request = request_at(line, 3)?;
    Some(Event::Worked { session, request })
}

/// `ran session request type req_type * *`.
#[tactic(auto, unfolding(crate::specs::Telling::ran_in))]
pub fn ran(line: &[u8]) -> Option<Event>
    ensures { result ≡ ran_in (words_of line.now) }
{
    let session = session_at(line, 2)?;
    let request = request_at(line, 3)?;
    let req_type = small_at(line, 5)?;
    Some(Event::Ran {
        session,
        request,
        req_type,
    })
}

/// `rolled call posted got`.
#[tactic(auto, unfolding(crate::specs::Telling::rolled_in))]
pub fn rolled(line: &[u8]) -> Option<Event>
    ensures { result ≡ rolled_in (words_of line.now) }
{
    let call = call_at(line, 2)?;
    let posted = half_at(line, 3)?;
    let got = half_at(line, 4)?;
    Some(Event::Rolled { call, posted, got })
}

/// `done call ok *`.
#[tactic(auto, unfolding(crate::specs::Telling::done_ok_in))]
pub fn done_ok(line: &[u8]) -> Option<Event>
    ensures { result ≡ done_ok_in (words_of line.now) }
{
    let call = call_at(line, 2)?;
    Some(Event::DoneOk { call })
}

/// `done call toosmall size`.
#[tactic(auto, unfolding(crate::specs::Telling::done_too_small_in))]
pub fn done_too_small(line: &[u8]) -> Option<Event>
    ensures { result ≡ done_too_small_in (words_of line.now) }
{
    let call = call_at(line, 2)?;
    let size = word_number_at(line, 4)?;
    Some(Event::DoneTooSmall { call, size })
}

/// `done call peerlost`.
#[tactic(auto, unfolding(crate::specs::Telling::done_peer_lost_in))]
pub fn done_peer_lost(line: &[u8]) -> Option<Event>
    ensures { result ≡ done_peer_lost_in (words_of line.now) }
{
    let call = call_at(line, 2)?;
    Some(Event::DonePeerLost { call })
}

/// `polled now`.
#[tactic(auto, unfolding(crate::specs::Telling::polled_in))]
pub fn polled(line: &[u8]) -> Option<Event>
    ensures { result ≡ polled_in (words_of line.now) }
{
    let now = number_at(line, 2)?;
    Some(Event::Polled { now })
}

/// `missed number`.
#[tactic(auto, unfolding(crate::specs::Telling::missed_in))]
pub fn missed(line: &[u8]) -> Option<Event>
    ensures { result ≡ missed_in (words_of line.now) }
{
    let number = word_number_at(line, 2)?;
    Some(Event::Missed { number })
}

/// `carried copy`.
#[tactic(auto, unfolding(crate::specs::Telling::carried_in))]
pub fn carried(line: &[u8]) -> Option<Event>
    ensures { result ≡ carried_in (words_of line.now) }
{
    let copy = word_number_at(line, 2)?;
    Some(Event::Carried { copy })
}

/// `lost copy`.
#[tactic(auto, unfolding(crate::specs::Telling::lost_in))]
pub fn lost(line: &[u8]) -> Option<Event>
    ensures { result ≡ lost_in (words_of line.now) }
{
    let copy = word_number_at(line, 2)?;
    Some(Event::Lost { copy })
}

/// `repeated copy`.
#[tactic(auto, unfolding(crate::specs::Telling::repeated_in))]
pub fn repeated(line: &[u8]) -> Option<Event>
    ensures { result ≡ repeated_in (words_of line.now) }
{
    let copy = word_number_at(line, 2)?;
    Some(Event::Repeated { copy })
}

/// `ticked by`.
#[tactic(auto, unfolding(crate::specs::Telling::ticked_in))]
pub fn ticked(line: &[u8]) -> Option<Event>
    ensures { result ≡ ticked_in (words_of line.now) }
{
    let by = word_number_at(line, 2)?;
    Some(Event::Ticked { by })
}
