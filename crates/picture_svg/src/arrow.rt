//! A copy of a datagram: a line from node to node, and its words along it.
use crate::names::kind_name;
use crate::places::Layout;
use crate::short::Short;
use rpc_base::{Event, Fact, Owner};
use sequence_picture::{End, Track, Way, way_sent};
use std::fmt;

/// How far a line comes that doesn't reach its node, in tenths.
const STOP: u32 = 6;

/// From the lane that a line comes from to its words.
const NEAR: u32 = 28;

/// A whole line, in tenths.
const WHOLE: u32 = 10;

/// From a line to the words above it.
const ABOVE: u64 = 7;

/// Parts of one in which a slope is told.
const THOUSAND: u64 = 1000;

/// From the middle of a cross to its corners.
const CORNER: u32 = 6;

/// From a cross to the word beside it.
const BESIDE: u32 = 12;

/// From a line's end to the words below it.
const BELOW: u32 = 16;

/// A line between two points, the second not above the first.
#[derive(Clone, Copy)]
struct Line {
    from: u32,
    top: u32,
    to: u32,
    foot: u32,
}

/// Where the words along a line stand, and how much they fall from left to right, in thousandths
/// with a sign.
#[derive(Clone, Copy)]
struct Slanted {
    x: u32,
    y: u64,
    anchor: &'static str,
    sign: &'static str,
    slope: u64,
}

/// A copy of a datagram, by its track and its end.
#[derive(Drop)]
pub struct ArrowText<'a> {
    pub facts: &'a [Fact],
    pub layout: &'a Layout,
    pub track: Track,
    pub end: End,
}

#[derive(Drop)]
struct Label<'a> {
    sent: &'a Fact,
    repeated: bool,
}

// So many tenths of the way from one number to another.
fn part(from: u32, to: u32, tenths: u32) -> u32 {
    if from <= to {
        from.saturating_add(((to - from) / WHOLE).saturating_mul(tenths))
    } else {
        from.saturating_sub(((from - to) / WHOLE).saturating_mul(tenths))
    }
}

impl Line {
    // The point so many tenths along the line.
    fn point(&self, tenths: u32) -> (u32, u32) {
        (
            part(self.from, self.to, tenths),
            part(self.top, self.foot, tenths),
        )
    }

    // The front of the line, up to so many tenths.
    fn front(&self, tenths: u32) -> Line {
        let (to, foot) = self.point(tenths);
        Line { to, foot, ..*self }
    }

    // How much the line falls along its way, in thousandths.
    fn slope(&self) -> u64 {
        let fall = u64::from(self.foot.saturating_sub(self.top)) * THOUSAND;
        if self.from < self.to {
            fall / u64::from(self.to - self.from)
        } else if self.to < self.from {
            fall / u64::from(self.from - self.to)
        } else {
            0
        }
    }

    // Where the words above the line stand, and how they lean on that point.
    fn label(&self) -> Slanted {
        let slope = self.slope();
        let down = u64::from(NEAR).saturating_mul(slope) / THOUSAND;
        let y = u64::from(self.top)
            .saturating_add(down)
            .saturating_sub(ABOVE);
        if self.from <= self.to {
            Slanted {
                x: self.from.saturating_add(NEAR),
                y,
                anchor: "start",
                sign: "",
                slope,
            }
        } else {
            Slanted {
                x: self.from.saturating_sub(NEAR),
                y,
                anchor: "end",
                sign: "-",
                slope,
            }
        }
    }
}

impl fmt::Display for Label<'_> {
    fn fmt<W: fmt::Write>(&self, f: &mut fmt::Formatter<W>) -> fmt::Result {
        let Event::Sent { owner, number, .. } = &self.sent.event else {
            return Ok(());
        };
        f.write_str(kind_name(self.sent.first.bytes()))?;
        if let Owner::Ask { request, .. } | Owner::Reply { request, .. } = owner {
            write!(f, " {}.{number}", request.get())?;
        }
        if self.repeated {
            return f.write_str(" (copy)");
        }
        let body = self.sent.second.bytes();
        if body.is_empty() {
            return Ok(());
        }
        let body = Short(body);
        write!(f, " {body}")
    }
}

impl ArrowText<'_> {
    // The whole line, from where the copy was put into flight.
    fn line(&self, way: Way) -> Line {
        let end = match self.end {
            End::Came(place) | End::Lost(place) | End::Untold(place) => self.layout.top(place),
            End::Flying => self.layout.bottom(),
        };
        Line {
            from: self.layout.lane(way.from),
            top: self.layout.top(self.track.put),
            to: self.layout.lane(way.to),
            foot: end,
        }
    }

    fn write_line<W: fmt::Write>(
        &self,
        line: Line,
        tip: &str,
        f: &mut fmt::Formatter<W>,
    ) -> fmt::Result {
        let dashes = if self.track.put == self.track.sent {
            ""
        } else {
            " stroke-dasharray=\"6,4\""
        };
        writeln!(
            f,
            "<line x1=\"{}\" y1=\"{}\" x2=\"{}\" y2=\"{}\" class=\"copy\"{dashes}{tip}/>",
            line.from, line.top, line.to, line.foot
        )
    }

    fn write_label<W: fmt::Write>(
        &self,
        line: Line,
        sent: &Fact,
        f: &mut fmt::Formatter<W>,
    ) -> fmt::Result {
        let Slanted {
            x,
            y,
            anchor,
            sign,
            slope,
        } = line.label();
        let (whole, part) = (slope / THOUSAND, slope % THOUSAND);
        let label = Label {
            sent,
            repeated: self.track.put != self.track.sent,
        };
        writeln!(
            f,
            "<text class=\"label\" text-anchor=\"{anchor}\" \
             transform=\"matrix(1 {sign}{whole}.{part:03} 0 1 {x} {y})\">{label}</text>"
        )
    }
}

fn write_cross<W: fmt::Write>(x: u32, y: u32, f: &mut fmt::Formatter<W>) -> fmt::Result {
    let (left, right) = (x.saturating_sub(CORNER), x.saturating_add(CORNER));
    let (top, foot) = (y.saturating_sub(CORNER), y.saturating_add(CORNER));
    writeln!(
        f,
        "<line x1=\"{left}\" y1=\"{top}\" x2=\"{right}\" y2=\"{foot}\" class=\"cross\"/>"
    )?;
    writeln!(
        f,
        "<line x1=\"{left}\" y1=\"{foot}\" x2=\"{right}\" y2=\"{top}\" class=\"cross\"/>"
    )?;
    let (beside, foot) = (x.saturating_add(BESIDE), y.saturating_add(BELOW));
    writeln!(
        f,
        "<text x=\"{beside}\" y=\"{foot}\" class=\"lost\">lost</text>"
    )
}

fn write_stopped<W: fmt::Write>(
    x: u32,
    y: u32,
    words: &str,
    f: &mut fmt::Formatter<W>,
) -> fmt::Result {
    let below = y.saturating_add(BELOW);
    writeln!(
        f,
        "<text x=\"{x}\" y=\"{below}\" class=\"label\" text-anchor=\"middle\">{words}</text>"
    )
}

impl fmt::Display for ArrowText<'_> {
    fn fmt<W: fmt::Write>(&self, f: &mut fmt::Formatter<W>) -> fmt::Result {
        let Some(sent) = self.facts.get(self.track.sent) else {
            return Ok(());
        };
        let Some(way) = way_sent(sent) else {
            return Ok(());
        };
        let line = self.line(way);
        let (x, y) = line.point(STOP);
        match self.end {
            End::Came(_) => self.write_line(line, " marker-end=\"url(#tip)\"", f)?,
            End::Lost(_) => {
                self.write_line(line.front(STOP), "", f)?;
                write_cross(x, y, f)?;
            }
            End::Untold(_) => {
                self.write_line(line.front(STOP), "", f)?;
                write_stopped(x, y, "carried", f)?;
            }
            End::Flying => {
                self.write_line(line.front(STOP), "", f)?;
                write_stopped(x, y, "still in flight", f)?;
            }
        }
        self.write_label(line, sent, f)
    }
}
