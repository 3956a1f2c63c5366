//! The law of stalls of every history that follows a script, over any number of nodes and sessions.
//! The sessions are paired, or opened and accepted, and ended. Each pairing of the script is of two
//! nodes and has 1 to 256 credits, as in every `Script`.
ghost use Rattle.std.specs.Prelude.{List};
ghost use Rattle.end_laws.specs.TwoNodes.{PairsTwoNodes};
ghost use Rattle.rpc_base.specs.declared.fact.Fact.{Fact};
ghost use Rattle.script_grammar.specs.declared.line.Line.{Line};
ghost use Rattle.sim_script.specs.FollowsScript.{Follows};
ghost use Rattle.stall_laws.specs.NoStall.{NoStall};
ghost use Rattle.world_laws.specs.FewCredits.{PairsFewCredits};

/// At each end of a command at which nothing is in flight, all lists are empty and no call was
/// asked since its node's last poll, each call of a present life that isn't over has a cause. Where
/// it has unanswered packets, a datagram of its request was lost, found a full ring or was dropped,
/// or its peer was restarted, since it began or was rolled back last. An active call without any
/// has no free credit, and a waiting one no slot.
pub fn no_stall()
    ensures { (script : List Line) (h : List Fact) → PairsTwoNodes script
        → PairsFewCredits script → Follows script h → NoStall script h }
{}
