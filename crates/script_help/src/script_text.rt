//! A script as text, which the reader of scripts takes.
use rpc_base::{NodeId, SessionNo};
use script_grammar::{AskBytes, Command, Line};
use std::fmt;

/// The lines of a script whose commands stand on the lines from 2 on, without a gap.
#[derive(Drop)]
pub struct ScriptText<'a>(pub &'a [Line]);

#[derive(Drop)]
struct AskText<'a>(&'a AskBytes);

#[derive(Drop)]
struct CommandText<'a>(&'a Command);

impl fmt::Display for AskText<'_> {
    fn fmt<W: fmt::Write>(&self, f: &mut fmt::Formatter<W>) -> fmt::Result {
        match self.0 {
            AskBytes::Count(count) => write!(f, "*{count}"),
            AskBytes::Given(bytes) if bytes.is_empty() => f.write_str("-"),
            AskBytes::Given(bytes) => {
                for byte in bytes.bytes() {
                    write!(f, "{byte:02x}")?;
                }
                Ok(())
            }
        }
    }
}

impl fmt::Display for CommandText<'_> {
    fn fmt<W: fmt::Write>(&self, f: &mut fmt::Formatter<W>) -> fmt::Result {
        match self.0 {
            Command::Node { ring } => write!(f, "node ring={ring}"),
            Command::Pair { a, b, credits } => write!(f, "pair {} {} credits={credits}", a.0, b.0),
            Command::Connect { a, b, credits } => {
                write!(f, "connect {} {} credits={credits}", a.0, b.0)
            }
            Command::Disconnect { node, session } => write!(
                f,
                "disconnect {} {}",
                node.0, session.0
            ),
            Command::Rate {
                node,
                session,
                rate,
            } => write!(f, "rate {} {} {rate}", node.0, session.0),
            Command::Call {
                node,
                session,
                req_type,
                ask,
                room,
            } => {
                let ask = AskText(ask);
                write!(
                    f,
                    "call {} {} {req_type} {ask} room={room}",
                    node.0, session.0
                )
            }
            Command::Poll { node } => write!(f, "poll {}", node.0),
            Command::Arrive { copy } => write!(f, "arrive {copy}"),
            Command::Lose { copy } => write!(f, "lose {copy}"),
            Command::Repeat { copy } => write!(f, "repeat {copy}"),
            Command::Tick { by } => write!(f, "tick {by}"),
            Command::Work { node, job } => write!(f, "work {} {job}", node.0),
            Command::Settle { rounds } => write!(f, "settle {rounds}"),
            Command::Restart { node } => write!(f, "restart {}", node.0),
        }
    }
}

impl fmt::Display for ScriptText<'_> {
    fn fmt<W: fmt::Write>(&self, f: &mut fmt::Formatter<W>) -> fmt::Result {
        f.write_str("erpc-sim 1\n")?;
        for line in self.0 {
            writeln!(f, "{}", CommandText(&line.command))?;
        }
        Ok(())
    }
}
