//! The network of a script: the copies of datagrams in flight, in the order in which they were
//! sent. It drops, delays and repeats only what it is told to, and knows nothing of packets.
#![tactic(auto)]

mod datagram;
mod net;
mod node_link;
mod stage;

pub use net::Net;
pub use node_link::NodeLink;
pub use rpc_laws::InFlight as Copy;
pub use stage::Stage;
