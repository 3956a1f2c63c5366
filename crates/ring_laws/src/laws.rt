//! The law of receive rings of every history that follows a script, over any number of nodes and
//! sessions, which are paired, or opened and accepted, and ended. Each pairing of the script is of
//! two nodes, as in every `Script`.
//!
//! The same laws of every joint run: of nodes with the plain service, each with a clock, a ring and
//! limits of its own, whatever links are busy and whatever memory is wanting.
ghost use Rattle.std.specs.Prelude.{List};
ghost use Rattle.end_laws.specs.JointRun.{LeavesAs, OfEveryJointRun};
ghost use Rattle.end_laws.specs.TwoNodes.{PairsTwoNodes};
ghost use Rattle.ring_laws.specs.CalmRing.{Calm, MessagesFit};
ghost use Rattle.ring_laws.specs.PairsOnce.{IsTidy, PairsOnce};
ghost use Rattle.rpc_base.specs.declared.fact.Fact.{Fact};
ghost use Rattle.script_grammar.specs.declared.line.Line.{Line};
ghost use Rattle.sim_script.specs.FollowsScript.{Follows};

/// Where a message finds the ring of its node full, a datagram was repeated, a call was rolled back
/// or a node was restarted before, at whatever node.
pub fn messages_fit()
    ensures { (script : List Line) (h : List Fact) → PairsTwoNodes script → Follows script h
        → MessagesFit h }
{}

/// At every moment before which no datagram was repeated, no call rolled back and no node
/// restarted, each packet of a call that is queued, in flight in either direction, in a ring or a
/// job is unanswered, and it stands in one of these places only.
pub fn packets_stand_once()
    ensures { (script : List Line) (h : List Fact) → PairsTwoNodes script → Follows script h
        → PairsOnce h }
{}

/// In a joint run a message finds the ring of its node full only where a datagram was repeated or a
/// call was rolled back before, at whatever node.
pub fn joint_messages_fit()
    ensures { OfEveryJointRun (λ h t. MessagesFit h) }
{}

/// Where a joint run leaves its nodes and copies, each packet of a call stands in one place only,
/// as in `packets_stand_once`, unless a datagram was repeated or a call rolled back.
pub fn joint_packets_stand_once()
    ensures { OfEveryJointRun (LeavesAs (λ w. Calm w.past → IsTidy w)) }
{}
