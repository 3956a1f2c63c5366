//! The subcommands and their names.
ghost use Rattle.std.specs.Prelude.{◌≡◌};
ghost use Rattle.command_line.specs.Subcommands.{named};

use crate::forms::{AUDIT, DRILL, LOAD, SERVE, SIM};

/// The names of the subcommands.
pub const NAMES: [&str; 5] = ["sim", "drill", "serve", "load", "audit"];

/// What the program can be told to do.
#[derive(Clone, Copy)]
pub enum Subcommand {
    Sim,
    Drill,
    Serve,
    Load,
    Audit,
}

impl Subcommand {
    /// The subcommand of this name, if there is one.
    #[tactic(auto, unfolding(crate::specs::Subcommands::named))]
    pub fn named(name: &str) -> Option<Subcommand>
        ensures { result ≡ named name.now }
    {
        match name {
            "sim" => Some(Subcommand::Sim),
            "drill" => Some(Subcommand::Drill),
            "serve" => Some(Subcommand::Serve),
            "load" => Some(Subcommand::Load),
            "audit" => Some(Subcommand::Audit),
            _ => None,
        }
    }

    /// How it is called.
    pub fn form(self) -> &'static str {
        match self {
            Subcommand::Sim => SIM,
            Subcommand::Drill => DRILL,
            Subcommand::Serve => SERVE,
            Subcommand::Load => LOAD,
            Subcommand::Audit => AUDIT,
        }
    }
}
