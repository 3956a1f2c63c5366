//! Laws of every history that follows a script, and one of every run of a node.
ghost use Rattle.std.specs.Prelude.{◌≡◌, List};
ghost use Rattle.one_history.specs.NetFacts.{AllOfNet};
ghost use Rattle.one_history.specs.OneHistory.{HasOneHistory, HasScript, LeavesOneStage};
ghost use Rattle.one_history.specs.RunsTold.{RunsTellTheirBytes};
ghost use Rattle.report_text.specs.Text.{text};
ghost use Rattle.report_text.specs.Told.{AllTold};
ghost use Rattle.rpc_base.specs.declared.fact.Fact.{Fact};
ghost use Rattle.script_grammar.specs.declared.line.Line.{Line};
ghost use Rattle.sim_script.specs.FollowsScript.{Follows};

use rpc_laws::History;
use sim_script::report_tells;

/// Two histories that follow one script are the same, and they leave the same nodes, copies, worked
/// jobs and clock.
pub fn scripts_have_one_history()
    ensures history { (script : List Line) → HasOneHistory script }
    ensures stage { (script : List Line) → LeavesOneStage script }
{}

/// No fact of a history that follows a script has other bytes than those that its line of the
/// report shows.
pub fn facts_tell_their_bytes()
    ensures { (script : List Line) (h : List Fact) → Follows script h → AllTold h }
{}

/// No fact of a run of one node has other bytes than those that its line shows, whatever its
/// service and whatever arrives.
pub fn runs_tell_their_bytes()
    ensures { RunsTellTheirBytes }
{}

/// No fact of the network, in a history that follows a script, has another event than Carried,
/// Lost, Repeated, Missed and Ticked.
pub fn network_notes_its_own()
    ensures { (script : List Line) (h : List Fact) → Follows script h → AllOfNet h }
{}

/// Two histories that follow scripts and have the same report are the same.
pub fn reports_have_one_history(one: &History, other: &History)
    requires one { HasScript one.now }
    requires other { HasScript other.now }
    ensures { text one.now ≡ text other.now → one.now ≡ other.now }
{
    report_tells(one, other)
}
