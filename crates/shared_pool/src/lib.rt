//! Message buffers that threads share: each place has one buffer, which is at home or out on loan.
//! No call but `SharedPool::new` takes memory, and none waits. That a try
//! ever succeeds isn't promised.
//!
//! The word of a place is `2 * generation`, plus 1 while its buffer is out. The **generation**
//! counts the loans of the place that are over. So a word never falls, and is never the same
//! for two loans.
//!
//! ```text
//!              borrow                give_back
//!   at home  ---------->  out      ------------>  at home
//!     2g                  2g+1                    2(g+1)
//! ```
//!
//! Who steps on a pool has a **seat**. Each seat has a **view**, what it knows, and only its own
//! steps change it. A view is seen by contracts alone; it has no bytes.
//!
//! | the view | |
//! |---|---|
//! | notes | the words that it found by a look or a lost exchange, each with its place |
//! | held | the loans that it holds |
//! | lent, back | all loans that it got, and all that it gave back |
//!
//! The **pool law** (`specs/Rule.antt`) holds between any two steps, however the steps of all
//! seats fall: no word is below a note; each place and generation is lent once and given back
//! once, if its word says so, and never otherwise; no two views hold one place; a buffer at home
//! stands in the place's slot (`pool_law`). These are all the kinds of step (`specs/Moves.antt`).
//!
//! | kind | call | word | view |
//! |---|---|---|---|
//! | look | borrow | one load | notes the word |
//! | lent | borrow | 2g to 2g+1 | holds the loan; takes the slot |
//! | lost | borrow | found another | notes the word |
//! | back | give_back | 2g+1 to 2g+2 | holds the loan no more; gives the slot |
//! | split | seat | word 0, as it was | the new seat's begins |
//! | join | join | word 0, as it was | takes over the other's lists |
//! | slot exchange | borrow, give_back | as it was | takes or gives the slot of its place |
#![tactic(auto)]

mod law;
mod loan;
mod moves;
mod pool;
mod rule;
mod view;
mod word;

pub use law::pool_law;
pub use loan::Loan;
pub use pool::{PoolSeat, SharedPool};
pub use word::{MOST_LOANS, MOST_PLACES};
