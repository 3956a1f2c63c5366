//! Where on the page facts and nodes stand, in pixels.
ghost use Rattle.memory_count.specs.Faults.{HasCause};

use memory_count::{Memory, NoMemory};
use rpc_base::{Event, Fact, NodeId, Who};
use sequence_picture::is_marked;

/// From the left edge to the first lane, and from the last lane to the right edge.
const MARGIN: u32 = 310;

/// From a lane to the next.
const LANE: u32 = 400;

/// From the top to the first fact.
const TOP: u32 = 74;

/// From a fact to the next.
const ROW: u32 = 26;

/// Above a line for the time that went on there is room for its words.
const TIME_ROOM: u32 = 12;

/// Below the last fact.
const FOOT: u32 = 34;

/// Where each fact of a history stands on the page.
#[derive(Debug, Drop)]
pub struct Layout {
    tops: Vec<u32>,
    bottom: u32,
    lanes: u32,
}

// How much of the page a fact takes.
fn height(fact: &Fact) -> u32 {
    let Who::Node(_) = fact.who else {
        return net_height(&fact.event);
    };
    let is_end = matches!(&fact.event, Event::Sent { .. } | Event::Arrived { .. });
    if is_end || is_marked(&fact.event) {
        ROW
    } else {
        0
    }
}

fn net_height(event: &Event) -> u32 {
    if let Event::Lost { .. } | Event::Repeated { .. } | Event::Ticked { .. } = event {
        ROW
    } else {
        0
    }
}

// How many lanes a fact needs: those up to its node, and up to the peer of what it sends.
fn lanes_of(fact: &Fact) -> u32 {
    let Who::Node(node) = fact.who else {
        return 0;
    };
    let peer = if let Event::Sent { peer, .. } = &fact.event {
        peer.0
    } else {
        0
    };
    u32::from(node.0.max(peer)) + 1
}

impl Layout {
    /// Lays the facts of a history out. `NoMemory` comes only where there is no memory for a place
    /// of each.
    pub fn new(memory: &mut Memory, facts: &[Fact]) -> Result<Layout, NoMemory>
        ensures cause { HasCause memory.old memory.new result }
    {
        let mut tops = memory.list(facts.len())?;
        let mut bottom = TOP;
        let mut lanes: u32 = 1;
        for fact in facts {
            if let Event::Ticked { .. } = &fact.event {
                bottom = bottom.saturating_add(TIME_ROOM);
            }
            memory.push(&mut tops, bottom)?;
            bottom = bottom.saturating_add(height(fact));
            lanes = lanes.max(lanes_of(fact));
        }
        Ok(Layout {
            tops,
            bottom,
            lanes,
        })
    }

    /// How far from the top the fact at this place stands.
    pub fn top(&self, place: usize) -> u32 {
        match self.tops.get(place) {
            Some(top) => *top,
            None => self.bottom,
        }
    }

    /// How far from the top the picture ends.
    pub fn bottom(&self) -> u32 {
        self.bottom
    }

    /// How many lanes there are.
    pub fn lanes(&self) -> u32 {
        self.lanes
    }

    /// How far from the left a node's lane is.
    pub fn lane(&self, node: NodeId) -> u32 {
        MARGIN + LANE * u32::from(node.0)
    }

    /// Whether a node's words stand left of its lane: those of the first.
    pub fn is_left(&self, node: NodeId) -> bool {
        node.0 == 0
    }

    pub fn width(&self) -> u32 {
        let between = LANE.saturating_mul(self.lanes.saturating_sub(1));
        between.saturating_add(2 * MARGIN)
    }

    pub fn height(&self) -> u32 {
        self.bottom.saturating_add(FOOT)
    }
}
