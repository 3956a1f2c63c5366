//! Step 1 of a poll: jobs are finished.
ghost use Rattle.node_steps.specs.Steps.{LeavesJobs, StepsJobs};
ghost use Rattle.node_steps.specs.Changes.{◌⟶◌};
ghost use Rattle.node_steps.specs.Handed.{timed_of};
ghost use Rattle.std.specs.Prelude.{◌≡◌, ◌<◌, ◌≤◌, ◌⊎◌, true, false, None, length, [], slice_get};
ghost use Rattle.std.specs.Prelude.{◌++◌, ◌∷◌, map};
ghost use Rattle.std.specs.List.{find, position, remove};
ghost use Rattle.std.specs.VecDeque.{deque_capacity};
ghost use Rattle.node_steps.specs.Jobs.{AnswersTo, AsksOf, NoneBack, is_named};
ghost use Rattle.node_steps.specs.Notes.{MakesWhere};
ghost use Rattle.node_steps.specs.Requests.{FinishesWith, job_named};
ghost use Rattle.node_steps.specs.Seen.{unasked};
ghost use Rattle.message_buffer.specs.Buffer.{bytes_of};
ghost use Rattle.packet_header.specs.Parts.{IsMessage};
ghost use Rattle.rpc_base.specs.Tables.{without_first};
ghost use Rattle.rpc_laws.specs.Jobs.{is_job};
ghost use Rattle.rpc_laws.specs.Queues.{replies};
ghost use Rattle.rpc_laws.specs.Requests.{is_server};
ghost use Rattle.session_store.specs.Joined.{put_listed};
ghost use Rattle.session_store.specs.Serving.{CanReply};

use endpoint_node::Node;
use node_steps::JobName;
use packet_rings::Entry;
use rpc_base::{Event, MOST_MESSAGE_BYTES, Owner, RequestNo, SessionNo, Who};
use rpc_outside::Recorder;
use session_store::Store;
use std::collections::VecDeque;
use worker_board::Parcel;
use worker_crew::Workers;

// Whether a job is that of this request.
fn is_of(job: &JobName, session: SessionNo, request: RequestNo) -> bool
    ensures { result ≡ is_named session request job.now }
{
    job.session.0 == session.0 && job.request.get() == request.get()
}

// Where the job of this request stands.
fn place_of_job(jobs: &VecDeque<JobName>, session: SessionNo, request: RequestNo) -> Option<usize>
    ensures { result ≡ position (is_named session request) jobs.now.items }
{
    'jobs: for i in 0..jobs.len() {
        if is_of(&jobs[i], session, request) {
            return Some(i);
        }
    }
    None
}

fn take_at(jobs: &mut VecDeque<JobName>, place: usize) -> Option<JobName>
    ensures job { result ≡ slice_get jobs.old.items place }
    ensures others { jobs.new.items ≡ remove jobs.old.items place }
    ensures capacity { deque_capacity jobs.new ≡ deque_capacity jobs.old }
{
    jobs.remove(place)
}

// Takes the job of this request out of those that are out. None comes exactly where there is none.
fn take_job(jobs: &mut VecDeque<JobName>, session: SessionNo, request: RequestNo) -> Option<JobName>
    ensures found { result ≡ find (is_named session request) jobs.old.items }
    ensures left { jobs.new.items ≡ without_first (is_named session request) jobs.old.items }
    ensures capacity { deque_capacity jobs.new ≡ deque_capacity jobs.old }
{
    let Some(place) = place_of_job(jobs, session, request) else {
        return None;
    };
    take_at(jobs, place)
}

/// The job of a parcel is one more of those that are out.
pub(crate) fn put_job(jobs: &mut VecDeque<JobName>, parcel: &Parcel)
    requires room { length jobs.old.items < deque_capacity jobs.old }
    ensures named { map unasked jobs.new.items
        ≡ map unasked jobs.old.items ++ job_named parcel.now ∷ [] }
    ensures capacity { deque_capacity jobs.new ≡ deque_capacity jobs.old }
{
    jobs.push_back_reserved(JobName {
        session: parcel.session,
        request: parcel.request,
        req_type: parcel.req_type,
    });
}

// The answer of a job goes to its session, and the reply behind what is ready where its request
// waits for it.
fn post_answer(store: &mut Store, parcel: Parcel) -> Option<Entry>
    requires answer { IsMessage parcel.out.len }
    requires reply { CanReply store.old }
    ensures servers { AnswersTo (position (is_server parcel.session) store.old.servers)
        parcel.request (bytes_of parcel.out) result store.old.servers store.new.servers }
    ensures clients { store.new.clients ≡ store.old.clients }
    ensures queued { store.new.queued ≡ put_listed None result store.old.queued }
    ensures size { store.new.size ≡ store.old.size }
    ensures places { store.new.places ≡ store.old.places }
    ensures handed { store.new.handed ≡ store.old.handed }
{
    let Some(place) = store.place_of_server(parcel.session) else {
        return None;
    };
    store.on_finished(place, parcel)
}

// A job of the node is finished, and its parcel has the answer, of at most 1,048,576 bytes.
// That its handler ran is noted, and its reply goes behind what is ready where its request
// waits for it. A parcel whose job isn't out is dropped, which is told by false.
fn finish<R: Recorder>(node: &mut Node, parcel: Parcel, rec: &mut R) -> bool
    requires room { replies node.old.lists.queued < node.old.lists.room }
    requires answer { IsMessage parcel.out.len }
    ensures done { result ≡ true → MakesWhere R.log (AsksOf parcel) (FinishesWith
        parcel.session parcel.request (bytes_of parcel.out)) (timed_of node.old)
        (timed_of node.new) rec.old rec.new }
    ensures jobs { result ≡ true → node.new.lists.jobs ≡ record node.old.lists.jobs {
      out = without_first (is_job parcel.session parcel.request) node.old.lists.jobs.out;
    } }
    ensures none { result ≡ false → (node.new ≡ node.old) × (rec.new ≡ rec.old)
        × (find (is_job parcel.session parcel.request) node.old.lists.jobs.out ≡ None) }
    ensures rest { LeavesJobs node.old node.new }
{
    let (session, request) = (parcel.session, parcel.request);
    let Some(job) = take_job(&mut node.jobs, session, request) else {
        return false;
    };
    let ran = Event::Ran {
        session,
        request,
        req_type: job.req_type,
    };
    let (ask, answer) = (parcel.ask.bytes(), parcel.out.bytes());
    rec.note(Who::Node(node.me), ran, ask, answer);
    node.counts.ran = node.counts.ran.saturating_add(1);
    let Some(entry) = post_answer(&mut node.store, parcel) else {
        return true;
    };
    let posted = Event::Posted {
        owner: Owner::Reply { session, request },
        number: entry.number,
    };
    rec.note(Who::Node(node.me), posted, &[], &[]);
    true
}

// A turn of step 1 of a poll: takes a job that a worker finished, while fewer replies are
// queued than the ring is long. A job that isn't out, or whose answer has more than 1,048,576
// bytes, is dropped. The result tells whether a job came back.
fn finish_next<W: Workers, R: Recorder>(node: &mut Node, workers: &mut W, rec: &mut R) -> bool
    requires room { replies node.old.lists.queued < node.old.lists.room }
    ensures step { StepsJobs R.log W.Workers (node.old ⟶ node.new) (rec.old ⟶ rec.new)
        (workers.old ⟶ workers.new) }
    ensures fewer { result ≡ true →
        length (W.out workers.new) < length (W.out workers.old) }
    ensures none { result ≡ false → NoneBack (W.worked workers.new)
        (length (W.out workers.new)) (W.looks workers.old) (W.looks workers.new) }
{
    node.sound();
    let Some(finished) = workers.take() else {
        return false;
    };
    let parcel = finished.parcel;
    if parcel.out.bytes().len() > MOST_MESSAGE_BYTES as usize {
        return true;
    }
    let _went = finish(node, parcel, rec);
    true
}

// Whether fewer replies are queued than the ring is long.
pub(crate) fn has_room(node: &Node) -> bool
    ensures less { result ≡ true → replies node.now.lists.queued < node.now.lists.room }
    ensures full { result ≡ false → node.now.lists.room ≤ replies node.now.lists.queued }
{
    node.store.replies() < node.rx.size()
}

/// Step 1 of a poll: takes the jobs that the workers finished, while fewer replies are queued
/// than the ring is long. A job that isn't out, or whose answer has more than 1,048,576 bytes,
/// is dropped.
pub fn finish_all<W: Workers, R: Recorder>(node: &mut Node, workers: &mut W, rec: &mut R)
    ensures step { StepsJobs R.log W.Workers (node.old ⟶ node.new) (rec.old ⟶ rec.new)
        (workers.old ⟶ workers.new) }
    ensures over { (node.new.lists.room ≤ replies node.new.lists.queued)
        ⊎ NoneBack (W.worked workers.new) (length (W.out workers.new)) (W.looks workers.old)
        (W.looks workers.new) }
{
    'jobs: while has_room(node) {
        if !finish_next(node, workers, rec) {
            return;
        }
    }
}
