//! The two rings of an endpoint: datagrams as they arrived, and packets that wait to be sent. A
//! contract sees each as its list, from the front, with its size. It knows nothing of what packets
//! say, nor of the buffers that entries name.
#![tactic(auto)]

mod datagram;
mod entry;
mod least;
mod rx;
mod turning;
mod tx;

pub use datagram::Datagram;
pub use entry::Entry;
pub use rx::RxRing;
pub use tx::TxRing;
