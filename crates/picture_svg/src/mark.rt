//! A fact that stands alone: a dot at its node and its words beside it.
use crate::colour::Colour;
use crate::names::{reason_name, state_name};
use crate::places::Layout;
use crate::short::Short;
use crate::words::{Words, words_of};
use rpc_base::{Fact, NodeId, Who};
use std::fmt;

/// From a lane to the words beside it.
const BESIDE: u32 = 12;

/// From the middle of a line of words to its foot.
const HALF_LINE: u32 = 4;

/// From the edge to what goes across all lanes.
const EDGE: u32 = 40;

/// A mark, with how far from the top it stands.
#[derive(Drop)]
pub struct MarkText<'a> {
    pub layout: &'a Layout,
    pub fact: &'a Fact,
    pub top: u32,
}

/// The words of a fact.
#[derive(Drop)]
struct WordsText<'a>(&'a Fact);

impl fmt::Display for WordsText<'_> {
    fn fmt<W: fmt::Write>(&self, f: &mut fmt::Formatter<W>) -> fmt::Result {
        match words_of(&self.0.event) {
            Words::Nothing => Ok(()),
            Words::Plain(words) => f.write_str(words),
            Words::One(before, number, after) => write!(f, "{before}{number}{after}"),
            Words::Two(before, a, between, b, after) => {
                write!(f, "{before}{a}{between}{b}{after}")
            }
            Words::Bytes(before, number, after) => {
                let bytes = Short(self.0.first.bytes());
                write!(f, "{before}{number}{after}{bytes}")
            }
            Words::Handler => {
                let (request, answer) = (Short(self.0.first.bytes()), Short(self.0.second.bytes()));
                write!(f, "handler runs: {request} → {answer}")
            }
            Words::Refused(what, state) => {
                write!(f, "{what} refused: the session is {}", state_name(state))
            }
            Words::Dropped(reason) => write!(f, "dropped: {}", reason_name(reason)),
        }
    }
}

impl MarkText<'_> {
    fn write_at_node<W: fmt::Write>(&self, node: NodeId, f: &mut fmt::Formatter<W>) -> fmt::Result {
        let colour = Colour::of(&self.fact.event).code();
        let lane = self.layout.lane(node);
        let foot = self.top.saturating_add(HALF_LINE);
        let (beside, anchor) = if self.layout.is_left(node) {
            (lane.saturating_sub(BESIDE), "end")
        } else {
            (lane.saturating_add(BESIDE), "start")
        };
        let words = WordsText(self.fact);
        writeln!(
            f,
            "<circle cx=\"{lane}\" cy=\"{}\" r=\"5\" fill=\"{colour}\"/>",
            self.top
        )?;
        writeln!(
            f,
            "<text x=\"{beside}\" y=\"{foot}\" fill=\"{colour}\" class=\"words\" \
             text-anchor=\"{anchor}\">{words}</text>"
        )
    }

    fn write_across<W: fmt::Write>(&self, f: &mut fmt::Formatter<W>) -> fmt::Result {
        let right = self.layout.width().saturating_sub(EDGE);
        let foot = self.top.saturating_sub(HALF_LINE);
        let words = WordsText(self.fact);
        let top = self.top;
        writeln!(
            f,
            "<line x1=\"{EDGE}\" y1=\"{top}\" x2=\"{right}\" y2=\"{top}\" class=\"time\"/>"
        )?;
        writeln!(
            f,
            "<text x=\"{right}\" y=\"{foot}\" fill=\"{}\" text-anchor=\"end\">{words}</text>",
            Colour::Orange.code()
        )
    }
}

impl fmt::Display for MarkText<'_> {
    fn fmt<W: fmt::Write>(&self, f: &mut fmt::Formatter<W>) -> fmt::Result {
        match self.fact.who {
            Who::Node(node) => self.write_at_node(node, f),
            Who::Net => self.write_across(f),
        }
    }
}
