//! Background jobs that are finished: which facts tell it, and which packet is posted then.
ghost use Rattle.std.specs.Prelude.{◌≡◌, ◌<◌, ◌≤◌, IfSome, IsNone, Some, slice_get, take};
ghost use Rattle.std.specs.List.{find, position};
ghost use Rattle.rpc_laws.specs.Jobs.{is_job};
ghost use Rattle.std.specs.Str.{bytes_eq};
ghost use Rattle.rpc_laws.specs.PollOrder.{answer_posted, awaited, awaited_of, finished_facts};
ghost use Rattle.rpc_laws.specs.Queues.{replies};
ghost use Rattle.rpc_laws.specs.Requests.{is_request};
ghost use Rattle.rule_facts.specs.Finishing.{Finish, FinishNone, place_of_ran, says_ran, tells_ran};
ghost use Rattle.rule_facts.specs.Fronts.{Fronts, told_answer};

use crate::says::{is_node, says_posted};
use node_tables::{count_replies, place_of_request, place_of_server};
use packet_header::count;
use rpc_base::{Event, Fact, Listed, NodeId, Owner, RequestNo, SessionNo};
use rpc_laws::{Job, Lists, Served, Server};

fn awaited_of(served: &Served) -> Option<u32>
    ensures { result ≡ awaited_of (Some served.now) }
{
    if !served.working {
        return None;
    }
    Some(count(served.size) - 1)
}

fn awaited_in(slots: &Listed<Served>, request: RequestNo) -> Option<u32>
    ensures { result ≡ awaited_of (find (is_request request) slots.now) }
{
    let Some(place) = place_of_request(slots, request) else {
        return None;
    };
    awaited_of(slots.at(place))
}

/// The number of the packet that answers the last one of a job's request, where that waits for the
/// answer: it is the newest of its slot, and a worker has it.
pub fn awaited(job: &Job, servers: &Listed<Server>) -> Option<u32>
    ensures { result ≡ awaited job.now servers.now }
{
    let Some(place) = place_of_server(servers, job.session) else {
        return None;
    };
    awaited_in(&servers.at(place).slots, job.request)
}

fn tells_ran(event: &Event, job: &Job) -> bool
    ensures { result ≡ tells_ran job.now event.now }
{
    let Event::Ran {
        session,
        request,
        req_type,
    } = event
    else {
        return false;
    };
    session.0 == job.session.0 && request.get() == job.request.get() && *req_type == job.req_type
}

/// Whether bytes are the same.
pub fn is_same(bytes: &[u8], other: &[u8]) -> bool
    ensures { result ≡ bytes_eq bytes.now other.now }
{
    bytes == other
}

// Whether a fact says that the handler of a job ran on its bytes.
fn says_ran(fact: &Fact, me: NodeId, job: &Job) -> bool
    ensures { result ≡ says_ran me job.now fact.now }
{
    is_node(fact.who, me)
        && tells_ran(&fact.event, job)
        && is_same(fact.first.bytes(), job.ask.bytes())
}

// How many of the facts post the packet that answers the last one of a job's request.
fn answer_posted(lists: &Lists, job: &Job, facts: &[Fact]) -> Option<usize>
    ensures fronts { Fronts (answer_posted lists.now.me job.now (awaited job.now lists.now.servers))
        facts.now result }
    ensures few { IfSome result (λ n. n ≤ 1) }
{
    let Some(number) = awaited(job, &lists.servers) else {
        return Some(0);
    };
    if facts.is_empty() {
        return None;
    }
    let owner = Owner::Reply {
        session: job.session,
        request: job.request,
    };
    if says_posted(&facts[0], lists.me, owner, u64::from(number)) {
        Some(1)
    } else {
        None
    }
}

// How many of the facts finish this job.
fn finished(lists: &Lists, job: &Job, facts: &[Fact]) -> Option<usize>
    ensures { Fronts (finished_facts (told_answer facts.now) lists.now job.now) facts.now result }
{
    if facts.is_empty() || !says_ran(&facts[0], lists.me, job) {
        return None;
    }
    let Some(count) = answer_posted(lists, job, &facts[1..]) else {
        return None;
    };
    Some(count + 1)
}

// Where the job of a request stands.
fn place_of_job(out: &Listed<Job>, session: SessionNo, request: RequestNo) -> Option<usize>
    ensures { result ≡ position (is_job session request) out.now }
{
    out.as_slice().iter().position(|job| job.session.0 == session.0
        && job.request.get() == request.get())
}

// Where the job stands whose handler ran, by the event.
fn place_of_ran(out: &Listed<Job>, event: &Event) -> Option<usize>
    ensures { result ≡ place_of_ran out.now event.now }
{
    let Event::Ran {
        session,
        request,
        ..
    } = event
    else {
        return None;
    };
    place_of_job(out, *session, *request)
}

// How many of the facts finish the job that the first of them names, while there is room for a
// reply.
fn named_finished(lists: &Lists, fact: &Fact, facts: &[Fact]) -> Option<usize>
    requires room { replies lists.now.queued < lists.now.room }
    requires first { slice_get facts.now 0 ≡ Some fact.now }
    ensures some { IfSome result (λ n. Finish lists.now (take n facts.now)) }
    ensures only { IsNone result → FinishNone lists.now facts.now }
{
    let Some(place) = place_of_ran(&lists.jobs.out, &fact.event) else {
        return None;
    };
    finished(lists, lists.jobs.out.at(place), facts)
}

/// How many of the facts finish a background job of a node with these lists, at the head of a poll.
/// `None` comes exactly where no front of them does.
pub fn next_finished(lists: &Lists, facts: &[Fact]) -> Option<usize>
    ensures some { IfSome result (λ n. Finish lists.now (take n facts.now)) }
    ensures only { IsNone result → FinishNone lists.now facts.now }
{
    if facts.is_empty() {
        return None;
    }
    if lists.room as usize <= count_replies(&lists.queued) {
        return None;
    }
    named_finished(lists, &facts[0], facts)
}
