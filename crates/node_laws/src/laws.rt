//! Laws of the runs of one node in one of its lives, each proved of the definitions in `specs/`.
ghost use Rattle.node_laws.specs.Laws.{CreditBalances, DatagramsArePassedOver};
ghost use Rattle.node_laws.specs.Laws.{EndedCallsAreNotQueued};
ghost use Rattle.node_laws.specs.Laws.{EndedSessionsAreNotQueued, HappensAtMostOnce, InboxFits};
ghost use Rattle.node_laws.specs.Laws.{ListsAreKept, NumbersAreUsedOnce};
ghost use Rattle.node_laws.specs.Laws.{OlderRequestsAreNotQueued, QueuedPacketsFit};
ghost use Rattle.node_laws.specs.Laws.{RequestsTellTheHistory, RingFits, SendsItsOwn, SharesFit};
ghost use Rattle.node_laws.specs.Laws.{TablesTellTheHistory};

/// At the end of a run a node's tables are in order: sessions and calls have numbers of their own,
/// each count of a call is in its bounds, only connected sessions have calls, no request may run
/// twice, and the credits of the live sessions fit the ring. And each queued packet of a call is an
/// unanswered one of an active call of a live session, and is queued once.
pub fn lists_are_kept()
    ensures { ListsAreKept }
{}

/// At every moment of a run, the unanswered packets of a live client session and its free credits
/// make its limit, and a client packet is posted only of a live session with a free credit.
pub fn credit_balances()
    ensures { CreditBalances }
{}

/// In a run no request runs twice, and no call begins or ends twice.
pub fn happens_at_most_once()
    ensures { HappensAtMostOnce }
{}

/// At the end of a call none of its packets is queued, and none is posted later.
pub fn ended_calls_are_not_queued()
    ensures { EndedCallsAreNotQueued }
{}

/// Where a packet of a request is taken, no reply to an older request of its slot is queued, and
/// none is posted later.
pub fn older_requests_are_not_queued()
    ensures { OlderRequestsAreNotQueued }
{}

/// Where a server session ends no reply of it is queued, and none is posted later.
pub fn ended_sessions_are_not_queued()
    ensures { EndedSessionsAreNotQueued }
{}

/// At the end of a run a call is in the table exactly where it was asked and isn't over, and the
/// table's counts of it are those of the facts.
pub fn tables_tell_the_history()
    ensures { TablesTellTheHistory }
{}

/// At the end of a run a request is in the table exactly where a packet of it was taken, and none
/// of a greater number of its slot, and its session didn't end; and its type and size, how far it
/// has come, its bytes and its answer are those of the facts.
pub fn requests_tell_the_history()
    ensures { RequestsTellTheHistory }
{}

/// At no moment of a run is the receive ring longer than its room.
pub fn ring_fits()
    ensures { RingFits }
{}

/// At no moment of a run is the inbox longer than 64.
pub fn inbox_fits()
    ensures { InboxFits }
{}

/// At no moment of a run is a packet of a call queued twice; and the queued packets of a live
/// client session and its free credits are no more than its limit, and those of all sessions no
/// more than the ring is long.
pub fn queued_packets_fit()
    ensures { QueuedPacketsFit }
{}

/// At the end of a run the credits of a node's live sessions, of both kinds, are no more than its
/// ring is long.
pub fn shares_fit()
    ensures { SharesFit }
{}

/// In a run each call number is asked once, each session number is made once and gets its other end
/// once, and no two calls of a session begin as one request.
pub fn numbers_are_used_once()
    ensures { NumbersAreUsedOnce }
{}

/// Each packet that a run sends goes to the peer of its session, and its head and body spell the
/// packet that its owner has by the tables of that moment.
pub fn sends_its_own()
    ensures { SendsItsOwn }
{}

/// A datagram that is no packet changes nothing of a node's tables. One that found no room, and a
/// packet that is dropped or heard, changes nothing but its list and its count.
pub fn datagrams_are_passed_over()
    ensures { DatagramsArePassedOver }
{}
