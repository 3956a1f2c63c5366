//! Requests on their way to a worker and back, and the board over which threads hand them to one
//! another. It knows nothing of who starts a thread or of what a request asks. No call of a board
//! waits, and only `Board::new` takes memory.
//!
//! A board has places. Each has a **word**, which threads change in single steps, and a **slot**,
//! in which a parcel lies. The dispatcher offers a parcel at a free place; one of the hands
//! claims it, works it and finishes it; the dispatcher collects it. A job that no hand has
//! claimed the dispatcher can take back.
//!
//! ```text
//!            offer           claim            finish           collect
//!   free  ---------> ready ---------> claimed ---------> over ---------> free
//!     0 or 4(g-1)+3   4g+1             4g+2              4g+3              4g+3
//!                       |                                                  ^
//!                       +--------------- take_back: 4g+1 to 4g+3 ----------+
//! ```
//!
//! The word is `4 * generation + phase`: the **generation** counts the offers of the place from
//! 0, and the **phase** is 1 ready, 2 claimed or 3 over. A place that was never offered has the
//! word 0. So a word never falls, and a word is never the same for two offers. A `Ticket` names
//! one offer by its place and generation. A claim of an older one finds another word and is lost.
//!
//! Who steps on a board has a **seat**: `DispatchSeat` or `HandSeat`. Each seat has a **view**,
//! what it knows, and only its own steps change it. A view is seen by contracts alone; it has no
//! bytes.
//!
//! | the dispatcher's view | |
//! |---|---|
//! | ledger | of each place its offers, each with its whole parcel and how it ended |
//! | misses | the jobs that it looked at and found unfinished |
//! | lost | the jobs that it tried to take back and found claimed or over |
//! | out, used | the numbers of the hands that are out, and of all hands so far |
//! | runs, lost claims | what the hands that are back have worked, and tried to claim and lost |
//!
//! | a hand's view | |
//! |---|---|
//! | held | its claims: each ticket with the session, request, type and bytes asked |
//! | lost | the tickets that it tried to claim and found in another phase |
//! | runs | the tickets that it worked |
//!
//! A view also has **notes**: each step notes the word that it leaves. No note is forgotten, and
//! no word is below a note, so a step that lowered a word would break the board law.
//!
//! The **board law** (`specs/Rule.antt`) holds between any two steps, however the steps of all
//! seats fall. Of each place it ties together the word, the slot, the seats' views and the
//! dispatcher's list of offers: each generation is claimed by at most one hand, is run at most
//! once, and is collected with the answer to what was offered. These are all the kinds of step
//! (`specs/Moves.antt`). Each is one step on one word, and one function of `steps`, which alone has
//! the table.
//!
//! | call | step | word | tells |
//! |---|---|---|---|
//! | offer | load | as it was | the generation; takes the empty slot |
//! | | store | to 4g+1 | offered; gives the slot with the parcel |
//! | collect | load | as it was | collected, and takes the slot; or one more miss |
//! | | load | as it was | gives the emptied slot back |
//! | take_back | load | as it was | the generation |
//! | | exchange | 4g+1 to 4g+3 | taken back, and takes the slot; or one more lost |
//! | | load | as it was | gives the emptied slot back |
//! | claim | exchange | 4g+1 to 4g+2 | holds the claim, and takes the slot; or one more lost |
//! | | load | as it was | gives the emptied slot back |
//! | finish | load | as it was | takes the empty slot |
//! | | store | 4g+2 to 4g+3 | worked; gives the slot with the parcel |
//! | hand | exchange | word 0, as it was | the number of the next hand |
//! | | split | word 0, as it was | the number is out; the hand's view begins |
//! | retire | join | word 0, as it was | takes over the hand's lists; its seat is spent |
//! | | load | word 0, as it was | no ticket was run twice |
//!
//! A slot that is out with a seat is read and written by that seat alone. Inside a call the
//! view's `turn` says which slot that is; between two calls none is out.
#![tactic(auto)]

mod board;
mod rule;
mod steps;
mod ticket;
mod view;
mod word;

pub use board::{Board, DispatchSeat, HandSeat};
use message_buffer::MsgBuf;
use rpc_base::{RequestNo, SessionNo};
pub use ticket::Ticket;
pub use word::{MOST_OFFERS, MOST_PLACES};

/// A request that a worker answers, with both its buffers. It is moved whole.
#[derive(Debug, Drop)]
pub struct Parcel {
    /// The server session of the request.
    pub session: SessionNo,
    pub request: RequestNo,
    pub req_type: u8,
    /// The bytes that were asked.
    pub ask: MsgBuf,
    /// The buffer of the answer; its length is the answer's.
    pub out: MsgBuf,
}
