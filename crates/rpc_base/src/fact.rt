//! One fact of a history.
use crate::event::Event;
use crate::numbers::NodeId;
use crate::octets::Octets;

/// Where a fact happened: at a node, or in the network between the nodes.
#[derive(Clone, Copy, Debug, PartialEq, Eq)]
pub enum Who {
    Node(NodeId),
    Net,
}

/// Something that happened. The event holds numbers alone; `first` and `second` are its bytes,
/// empty where the event has none.
#[derive(Debug, Drop)]
pub struct Fact {
    pub who: Who,
    pub event: Event,
    pub first: Octets,
    pub second: Octets,
}
