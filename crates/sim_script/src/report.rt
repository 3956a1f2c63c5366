//! The report of a history.
ghost use Rattle.std.specs.Prelude.{◌≡◌};
ghost use Rattle.report_text.specs.Text.{text};
ghost use Rattle.report_text.specs.Told.{AllTold};
ghost use Rattle.rpc_outside.specs.Writing.{Prints};

use report_text::{print_facts, text_tells};
use rpc_laws::History;
use rpc_outside::{Failed, Sink};

/// Writes the report of a history: a first line, a line for each fact, and a last line with their
/// number. It takes no memory. `Failed` comes only where the sink counts one more fault; a front of
/// the report was then written.
pub fn print<K: Sink>(history: &History, sink: &mut K) -> Result<(), Failed>
    ensures { Prints (K.page sink.old) (K.page sink.new) result (text history.now) }
{
    print_facts(history.facts(), sink)
}

/// A law: two histories with the same report are the same, where no fact has other bytes than those
/// that its line shows. So a report names one history.
pub fn report_tells(one: &History, other: &History)
    requires one { AllTold one.now }
    requires other { AllTold other.now }
    ensures { text one.now ≡ text other.now → one.now ≡ other.now }
{
    text_tells(one.facts(), other.facts())
}
