//! What a user reads on standard error, where not all was done.
use crate::ended::{Cause, Ended};
use crate::losses::Loss;
use command_line::{LoadSpec, ServeSpec, Task, complaint, read_words};
use history_audit::fault_of;
use memory_count::Memory;
use rpc_tools::Status;
use script_help::Explanation;
use std::io;
use udp_link::Trouble;

/// Words that can't be read.
const NO_TEXT: &str = "a word is no text (UTF-8); erpc help tells how each subcommand is called";

/// The address that a load sends from where --bind gives no other.
const USUAL_BIND: &str = "127.0.0.1:0";

// One line on standard error that says why a report fails at its line.
fn blame(rt: &HostRuntime, line: u64, report: &[u8]) {
    let _ = match fault_of(&mut Memory::new(rt.alloc()), report) {
        Ok(fault) => eprintln!(rt; "erpc: line {line}: {fault}"),
        Err(_) => eprintln!(rt; "erpc: {}", Status::NotLawful { line }),
    };
}

/// One line on standard error: for a bad script with what was expected in place of its bad line,
/// for a report that isn't lawful with what is wrong.
pub fn complain(rt: &HostRuntime, status: Status, source: Option<&[u8]>) {
    let _ = match (status, source) {
        (Status::NotLawful { line }, Some(bytes)) => return blame(rt, line, bytes),
        (Status::BadScript(bad), Some(bytes)) => {
            eprintln!(rt; "erpc: {}", Explanation::of(bytes, bad))
        }
        (status, _) => eprintln!(rt; "erpc: {status}"),
    };
}

// One line on standard error that names the wrong word, or how each subcommand is called.
fn refuse(rt: &HostRuntime, words: &[String]) {
    let _ = match complaint(&mut Memory::new(rt.alloc()), words) {
        Ok(text) => eprintln!(rt; "erpc: {text}"),
        Err(_) => eprintln!(rt; "erpc: {}", Status::Usage),
    };
}

// The address of the other server, where the words name one.
fn relay_of(spec: &ServeSpec) -> Option<&str> {
    match &spec.relay {
        None => None,
        Some(addr) => Some(addr.as_str()),
    }
}

// The text that the link took for no address, where that is what failed.
fn wrong_address(task: &Task, trouble: Trouble) -> Option<&str> {
    match (task, trouble) {
        (Task::Serve(spec), Trouble::NoOwnAddress) => Some(spec.addr.as_str()),
        (Task::Serve(spec), Trouble::NoPeerAddress) => relay_of(spec),
        (Task::Load(spec), Trouble::NoOwnAddress) => Some(spec.bind.as_str()),
        (Task::Load(spec), Trouble::NoPeerAddress) => Some(spec.addr.as_str()),
        _ => None,
    }
}

// One line on standard error that says what failed of the link, with the address that is none. The
// words are read once more for it.
fn tell_trouble(rt: &HostRuntime, trouble: Trouble, words: &[String]) {
    let task = read_words(&mut Memory::new(rt.alloc()), words);
    let wrong = match &task {
        Ok(task) => wrong_address(task, trouble),
        Err(_) => None,
    };
    let _ = match wrong {
        Some(text) => eprintln!(rt; "erpc: {text:?}: {trouble}"),
        None => eprintln!(rt; "erpc: {trouble}"),
    };
}

// One line on standard error that says how the session of a load was lost. From its usual address
// a load reaches this machine alone.
fn tell_loss_of(rt: &HostRuntime, loss: Loss, spec: &LoadSpec) {
    let failed = Status::CallsFailed;
    let addr = spec.addr.as_str();
    let _ = match loss {
        Loss::NoAnswer if spec.bind.as_str() == USUAL_BIND => eprintln!(rt;
            "erpc: {failed}: no server answered at {addr}; \
             a client sends from {USUAL_BIND} unless --bind gives another address"
        ),
        Loss::NoAnswer => eprintln!(rt; "erpc: {failed}: no server answered at {addr}"),
        Loss::NoRoom => eprintln!(rt; "erpc: {failed}: the server at {addr} had no room"),
        Loss::Broken => eprintln!(rt; "erpc: {failed}: the session with {addr} was lost"),
    };
}

// The same, by the words of the load, which are read once more.
fn tell_loss(rt: &HostRuntime, loss: Loss, words: &[String]) {
    let task = read_words(&mut Memory::new(rt.alloc()), words);
    match &task {
        Ok(Task::Load(spec)) => tell_loss_of(rt, loss, spec),
        _ => complain(rt, Status::CallsFailed, None),
    }
}

// Tells of a status of which no more is known.
fn tell_status(
    rt: &HostRuntime,
    status: Status,
    words: &io::Result<Vec<String>>,
    source: Option<&[u8]>,
) {
    match (status, words) {
        (Status::Done, _) => {}
        (Status::Usage, Ok(words)) => refuse(rt, words.as_slice()),
        (status, _) => complain(rt, status, source),
    }
}

/// Tells how the program ended, where not all was done. Who closed the output is told nothing.
pub fn tell(
    rt: &HostRuntime,
    ended: Ended,
    words: &io::Result<Vec<String>>,
    source: Option<&[u8]>,
) {
    match (ended.cause, words) {
        (Cause::Closed, _) => {}
        (Cause::NoText, _) => {
            let _ = eprintln!(rt; "erpc: {NO_TEXT}");
        }
        (Cause::Link(trouble), Ok(words)) => tell_trouble(rt, trouble, words.as_slice()),
        (Cause::Session(loss), Ok(words)) => tell_loss(rt, loss, words.as_slice()),
        _ => tell_status(rt, ended.status, words, source),
    }
}
