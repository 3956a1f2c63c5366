//! The whole picture.
use crate::arrow::ArrowText;
use crate::mark::MarkText;
use crate::places::Layout;
use rpc_base::{Fact, NodeId};
use sequence_picture::Drawn;
use std::fmt;

/// How far from the top the names of nodes stand.
const NAMES: u32 = 34;

/// How far from the top the lanes begin.
const LANES: u32 = 48;

/// How far from the bottom the lanes end.
const LANES_END: u32 = 14;

/// What lines, tips and words look like.
const STYLE: &str = "<defs><marker id=\"tip\" markerWidth=\"11\" markerHeight=\"8\" refX=\"10\" \
     refY=\"4\" orient=\"auto\"><path d=\"M0,0 L11,4 L0,8 z\" fill=\"#333333\"/></marker></defs>\n\
     <style>.copy{stroke:#333333;stroke-width:1.4}.cross{stroke:#c00000;stroke-width:2.4}\
     .time{stroke:#c66400;stroke-dasharray:2,4}.lane{stroke:#aaaaaa;stroke-width:2}\
     .words{font-weight:bold}.label{font-size:12px;fill:#222222;stroke:white;stroke-width:2px;\
     paint-order:stroke}.lost{fill:#c00000}\
     .name{font-size:15px;font-weight:bold}</style>\n";

/// The picture of a history, as the text of an SVG file.
#[derive(Drop)]
pub struct Svg<'a> {
    pub facts: &'a [Fact],
    pub drawn: &'a [Drawn],
    pub layout: &'a Layout,
}

impl Svg<'_> {
    fn write_lane<W: fmt::Write>(&self, node: NodeId, f: &mut fmt::Formatter<W>) -> fmt::Result {
        let lane = self.layout.lane(node);
        let foot = self.layout.height().saturating_sub(LANES_END);
        writeln!(
            f,
            "<line x1=\"{lane}\" y1=\"{LANES}\" x2=\"{lane}\" y2=\"{foot}\" class=\"lane\"/>"
        )?;
        writeln!(
            f,
            "<text x=\"{lane}\" y=\"{NAMES}\" text-anchor=\"middle\" class=\"name\">node {}</text>",
            node.0
        )
    }

    fn write_head<W: fmt::Write>(&self, f: &mut fmt::Formatter<W>) -> fmt::Result {
        let (width, height) = (self.layout.width(), self.layout.height());
        writeln!(
            f,
            "<svg xmlns=\"http://www.w3.org/2000/svg\" width=\"{width}\" height=\"{height}\" \
             viewBox=\"0 0 {width} {height}\" font-family=\"DejaVu Sans, Verdana, sans-serif\" \
             font-size=\"13\">"
        )?;
        f.write_str(STYLE)?;
        writeln!(
            f,
            "<rect width=\"{width}\" height=\"{height}\" fill=\"white\"/>"
        )
    }

    fn write_drawn<W: fmt::Write>(&self, drawn: Drawn, f: &mut fmt::Formatter<W>) -> fmt::Result {
        match drawn {
            Drawn::Copy(track, end) => {
                let arrow = ArrowText {
                    facts: self.facts,
                    layout: self.layout,
                    track,
                    end,
                };
                write!(f, "{arrow}")
            }
            Drawn::Mark(place) => match self.facts.get(place) {
                Some(fact) => {
                    let top = self.layout.top(place);
                    let mark = MarkText {
                        layout: self.layout,
                        fact,
                        top,
                    };
                    write!(f, "{mark}")
                }
                None => Ok(()),
            },
        }
    }
}

impl fmt::Display for Svg<'_> {
    fn fmt<W: fmt::Write>(&self, f: &mut fmt::Formatter<W>) -> fmt::Result {
        self.write_head(f)?;
        for node in 0..=u8::MAX {
            if u32::from(node) < self.layout.lanes() {
                self.write_lane(NodeId(node), f)?;
            }
        }
        for drawn in self.drawn {
            self.write_drawn(*drawn, f)?;
        }
        f.write_str("</svg>\n")
    }
}
