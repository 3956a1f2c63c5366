//! Laws of every history that follows a script, whatever the network loses, repeats and holds back,
//! over any number of nodes and sessions, which are paired, or opened and accepted by control
//! packets that are lost, repeated and held back as well. Each pairing of the script is of two
//! nodes, as in every `Script`.
//!
//! Laws of every joint run, which follows no script: of nodes each with a service, a clock, a ring
//! and limits of its own, whatever links are busy and whatever memory is wanting.
ghost use Rattle.std.specs.Prelude.{List, []};
ghost use Rattle.end_laws.specs.Genuine.{AllGenuine, Travels, WasPut};
ghost use Rattle.end_laws.specs.Handshakes.{Agree, AllAgree};
ghost use Rattle.end_laws.specs.JointRun.{JointAnswersOwn, OfEveryJointRun, PlainAnswersOwn};
ghost use Rattle.end_laws.specs.JointRun.{moment_left};
ghost use Rattle.end_laws.specs.TwoEnds.{AllTwoEnds, TwoEnds};
ghost use Rattle.end_laws.specs.TwoNodes.{PairsTwoNodes};
ghost use Rattle.end_laws.specs.WireRun.{WireAnswersOwn, WiresJoin};
ghost use Rattle.node_laws.specs.CallHistory.{latest_first};
ghost use Rattle.rpc_base.specs.declared.fact.Fact.{Fact};
ghost use Rattle.rpc_laws.specs.OwnAnswer.{Own};
ghost use Rattle.script_grammar.specs.Conditions.{IsScript};
ghost use Rattle.script_grammar.specs.declared.line.Line.{Line};
ghost use Rattle.sim_script.specs.FollowsScript.{Follows};

/// At every moment each datagram in flight, and each in a node's ring or inbox, was sent by its
/// sender to that node, as the packet that its owner had then.
pub fn all_genuine()
    ensures { (script : List Line) (h : List Fact) → PairsTwoNodes script → Follows script h
        → AllGenuine h }
{}

/// Each run of a handler is of a call that was asked and began before, on that call's own type and
/// bytes, and gives the service's answer after what ran inline at its node before. Each call that
/// ends well has the answer of a run of its own request, and one that ends for want of room has
/// such an answer's size, which is above its room.
pub fn answers_own()
    ensures { (script : List Line) (h : List Fact) → PairsTwoNodes script → Follows script h
        → Own h }
{}

/// At every moment the request in each slot of a server session is a call that the session's client
/// end began with that number, of its type and size and with its first parts taken, until they go
/// away with a job or the handler runs, and its answer is that of its run. Each background job that
/// is out is of such a call, and holds its whole bytes. What an active call has taken of an answer
/// are the first parts of the answer of its own request's run.
pub fn two_ends()
    ensures { (script : List Line) (h : List Fact) → PairsTwoNodes script → Follows script h
        → AllTwoEnds h }
{}

/// At every moment each connect reply with status 0 in flight, in hand or in an inbox names a
/// server session that its sender made for just that client session, with the credits that it
/// tells; and a client session for which its node sent a request to disconnect a server session is
/// neither Connecting nor connected with that one.
pub fn ends_agree()
    ensures { (script : List Line) (h : List Fact) → PairsTwoNodes script → Follows script h
        → AllAgree h }
{}

/// Each pairing of a `Script` is of two nodes, so these laws are of all its histories.
pub fn scripts_pair_two_nodes()
    ensures { (script : List Line) → IsScript script → PairsTwoNodes script }
{}

/// In a joint run each handler runs on its call's own bytes, and each call ends with its own
/// answer, as in `answers_own`: by the service of its node, and of nodes with the plain service by
/// that one. So it is over wires to which only what was sent comes.
pub fn joint_answers_own()
    ensures joint { JointAnswersOwn }
    ensures plain { PlainAnswersOwn }
    ensures wires { WireAnswersOwn }
{}

/// Where a joint run leaves its nodes, the two ends of each session hold what is of one call, as in
/// `two_ends`. What it notes up to any group is a joint run too.
pub fn joint_two_ends()
    ensures { OfEveryJointRun (λ h t. TwoEnds (moment_left h t)) }
{}

/// Where a joint run leaves its nodes, session control agrees, as in `ends_agree`.
pub fn joint_ends_agree()
    ensures { OfEveryJointRun (λ h t. Agree (moment_left h t)) }
{}

/// Each datagram that a joint run leaves in flight, in a ring or in an inbox was sent by its sender
/// to that node: none is forged, and none comes to another node.
pub fn joint_genuine()
    ensures { OfEveryJointRun (λ h t. Travels (WasPut (latest_first [] h)) (moment_left h t)) }
{}

/// Nodes over wires, to which no datagram comes that wasn't sent to them before, each note what
/// they note in some joint run.
pub fn wires_join()
    ensures { WiresJoin }
{}
