//! Laws of every history that follows a script, of each of its nodes. Each pairing of the script is
//! of two nodes, and each session that it pairs or connects has 1 to 256 credits, as in every
//! `Script`.
ghost use Rattle.std.specs.Prelude.{List};
ghost use Rattle.rpc_base.specs.declared.fact.Fact.{Fact};
ghost use Rattle.script_grammar.specs.Conditions.{IsScript};
ghost use Rattle.script_grammar.specs.declared.line.Line.{Line};
ghost use Rattle.world_laws.specs.FewCredits.{PairsFewCredits};
ghost use Rattle.world_laws.specs.JointNodes.{FollowsJointly, JointCallsAreInOrder};
ghost use Rattle.world_laws.specs.JointNodes.{JointCallsRunOnce, JointHappensAtMostOnce};
ghost use Rattle.world_laws.specs.JointNodes.{JointNumbersAreUsedOnce, JointRunsNodes};
ghost use Rattle.world_laws.specs.JointNodes.{WireCallsAreInOrder, WireCallsRunOnce};
ghost use Rattle.world_laws.specs.Laws.{CallsAreInOrder, CallsRunOnce, CreditBalances};
ghost use Rattle.world_laws.specs.Laws.{EndedCallsAreNotQueued};
ghost use Rattle.world_laws.specs.Laws.{EndedSessionsAreNotQueued, FollowsRuns, HappensAtMostOnce};
ghost use Rattle.world_laws.specs.Laws.{InboxFits, NumbersAreUsedOnce, OlderRequestsAreNotQueued};
ghost use Rattle.world_laws.specs.Laws.{RingFits, SendsItsOwn, TablesTellTheHistory};

/// The facts of each node are its `Made` and a run of that node, which leaves it as the history
/// does.
pub fn follows_runs()
    ensures { FollowsRuns }
{}

/// No request runs twice at a node, and no call begins or ends twice.
pub fn happens_at_most_once()
    ensures { HappensAtMostOnce }
{}

/// Each call number of a node is asked once, each session number is made once and gets its other
/// end once, and no two calls of a session begin as one request.
pub fn numbers_are_used_once()
    ensures { NumbersAreUsedOnce }
{}

/// Each run of a handler is for one call, and each call is one request, whose handler runs once at
/// most.
pub fn calls_run_once()
    ensures { CallsRunOnce }
{}

/// Each call that ends with an answer, or for want of room for one, was asked, then began as one
/// request, then ran as that, and then ended.
pub fn calls_are_in_order()
    ensures { CallsAreInOrder }
{}

/// At every moment, the unanswered packets of a live client session of a node and its free credits
/// make its limit.
pub fn credit_balances()
    ensures { CreditBalances }
{}

/// At the end of a call none of its packets is queued at its node, and none is posted there later.
pub fn ended_calls_are_not_queued()
    ensures { EndedCallsAreNotQueued }
{}

/// Where a packet of a request is taken, no reply to an older request of its slot is queued at its
/// node, and none is posted there later.
pub fn older_requests_are_not_queued()
    ensures { OlderRequestsAreNotQueued }
{}

/// At the end of a history a call is in its node's table exactly where it was asked there and isn't
/// over, and its counts, the size of its answer and the bytes of that so far are those of the
/// node's facts. A request is in it exactly where a packet of it was taken there, and none of a
/// greater number of its slot, and its session didn't end; and its type and size, how far it has
/// come, its bytes and its answer are those of the node's facts.
pub fn tables_tell_the_history()
    ensures { TablesTellTheHistory }
{}

/// At no moment is the receive ring of a node longer than its room.
pub fn ring_fits()
    ensures { RingFits }
{}

/// Where a server session ends no reply of it is queued at its node, and none is posted there
/// later.
pub fn ended_sessions_are_not_queued()
    ensures { EndedSessionsAreNotQueued }
{}

/// At no moment is the inbox of a node longer than 64.
pub fn inbox_fits()
    ensures { InboxFits }
{}

/// Each packet that a node sends goes to the peer of its session, and its head and body spell the
/// packet that its owner has by the node's tables of that moment.
pub fn sends_its_own()
    ensures { SendsItsOwn }
{}

/// Each session that a `Script` pairs or connects has 1 to 256 credits, so these laws are of all
/// its histories.
pub fn scripts_pair_few()
    ensures { (script : List Line) → IsScript script → PairsFewCredits script }
{}

/// The facts of each node of a joint run are its `Made` and a run of that node with its own limits
/// and service, which leaves it as the joint run does. So each law of one node's runs is of it.
pub fn joint_runs_nodes()
    ensures { JointRunsNodes }
{}

/// Each call number of a node of a joint run is asked once, each session number is made once and
/// gets its other end once, and no two calls of a session begin as one request.
pub fn joint_numbers_are_used_once()
    ensures { JointNumbersAreUsedOnce }
{}

/// No request of a joint run runs twice at a node, and no call begins or ends twice.
pub fn joint_happens_at_most_once()
    ensures { JointHappensAtMostOnce }
{}

/// Each run of a handler in a joint run is for one call, and each call is one request, whose
/// handler runs once at most; so it is over wires to which only what was sent comes.
pub fn joint_calls_run_once()
    ensures joint { JointCallsRunOnce }
    ensures wires { WireCallsRunOnce }
{}

/// Each call of a joint run that ends with an answer, or for want of room for one, was asked, then
/// began as one request, then ran as that, and then ended; so it is over such wires.
pub fn joint_calls_are_in_order()
    ensures joint { JointCallsAreInOrder }
    ensures wires { WireCallsAreInOrder }
{}

/// A history that follows a script in which no node is restarted is a joint run of nodes with the
/// usual limits.
pub fn follows_jointly()
    ensures { FollowsJointly }
{}
