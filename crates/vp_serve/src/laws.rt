//! What holds of every trace of the server, each law as the contract of a function that does nothing.

ghost use Rattle.vp_serve.specs.ActionLaws.{ActionsAreOfConnections, ClosingsAreReported, FinishedAreClosed};
ghost use Rattle.vp_serve.specs.ActionLaws.{NoEndIsReported, PeersFail};
ghost use Rattle.vp_serve.specs.ActionLaws.{NothingIsLost, RejectedAreRefused, RepliesAreCounted};
ghost use Rattle.vp_serve.specs.Bounds.{ConnectionsAreBounded};
ghost use Rattle.vp_serve.specs.Files.{FilesAreFed};
ghost use Rattle.vp_serve.specs.Laws.{BytesAreServed, OnlyIdleTimeOut, TracesAreJoined, TracesAreRuns};
ghost use Rattle.vp_serve.specs.LoopTurns.{ActionsAreOfTheirTurn, ReadyAreServed, TimeIsCounted, TurnsAreFair};
ghost use Rattle.vp_serve.specs.LoopTurns.{TurnsAreTimely, TurnsBeginByWaiting, WaitsAreForPeers};
ghost use Rattle.vp_serve.specs.Replies.{LinesGetOneReply, RepliesAreCurrent};
ghost use Rattle.vp_serve.specs.SameConnections.{SameConnections};
ghost use Rattle.vp_serve.specs.Turns.{OnlyReadyAreAttended, ReadyAreAttended};

/// Each connection is written its own replies, in order and without a gap.
pub fn bytes_are_served()
    ensures { BytesAreServed }
{}

/// A trace is a run of the hub, so all laws of the hub hold of the server.
pub fn traces_are_runs()
    ensures { TracesAreRuns }
{}

/// Two traces, one after the other, are one.
pub fn traces_are_joined()
    ensures { TracesAreJoined }
{}

/// The connections that are open in the hub are those of the server.
pub fn same_connections()
    ensures { SameConnections }
{}

/// A line gets one reply at most.
pub fn lines_get_one_reply()
    ensures { LinesGetOneReply }
{}

/// The reply to a line is that of the streams at the moment it is handed in.
pub fn replies_are_current()
    ensures { RepliesAreCurrent }
{}

/// No more connections are open than the options allow, with at most 4,096 bytes read and one reply kept of each.
pub fn connections_are_bounded()
    ensures { ConnectionsAreBounded }
{}

/// Each piece that was read from a file is fed once, in order, or is the one that waits.
pub fn files_are_fed()
    ensures { FilesAreFed }
{}

/// A connection that is ready is not passed over in a turn.
pub fn ready_are_attended()
    ensures { ReadyAreAttended }
{}

/// A connection that was accepted before a turn is not attended in it unless it was ready when the turn began.
pub fn only_ready_are_attended()
    ensures { OnlyReadyAreAttended }
{}

/// No connection is open a second after its idle timeout, at the end of a turn of the loop.
pub fn turns_are_timely()
    ensures { TurnsAreTimely }
{}

/// All that happens in a turn of the loop, happens at the turn's time.
pub fn actions_are_of_their_turn()
    ensures { ActionsAreOfTheirTurn }
{}

/// The time of the loop does not go back, and a turn counts a quarter of a second at most.
pub fn time_is_counted()
    ensures { TimeIsCounted }
{}

/// No connection that is ready after a turn of the loop was passed over in it.
pub fn ready_are_served()
    ensures { ReadyAreServed }
{}

/// In a turn of the loop all bytes that are replied to a connection are of one action.
pub fn turns_are_fair()
    ensures { TurnsAreFair }
{}

/// A turn of the loop begins by the transport's wait, which gives its clock.
pub fn turns_begin_by_waiting()
    ensures { TurnsBeginByWaiting }
{}

/// The loop waits only if each connection waits for its peer.
pub fn waits_are_for_peers()
    ensures { WaitsAreForPeers }
{}

/// A connection is closed at the idle timeout only if it was idle for so long.
pub fn only_idle_connections_time_out()
    ensures { OnlyIdleTimeOut }
{}

/// An action is of a connection just if bytes of it are handed to the hub, or something of it passes.
pub fn actions_are_of_connections()
    ensures { ActionsAreOfConnections }
{}

/// If one reply at most is made for a connection, all bytes that are replied to it are of one action.
pub fn replies_are_counted()
    ensures { RepliesAreCounted }
{}

/// A connection that was closed got all its replies, unless its idle timeout was over or a transfer failed.
pub fn nothing_is_lost()
    ensures { NothingIsLost }
{}

/// A connection is closed for a failed transfer only if it waited for its peer.
pub fn peers_fail()
    ensures { PeersFail }
{}

/// A connection that is not finished, and whose reply is written, was not closed by the hub.
pub fn finished_are_closed()
    ensures { FinishedAreClosed }
{}

/// A server that follows its files reports the end of no stream to the hub.
pub fn no_end_is_reported()
    ensures { NoEndIsReported }
{}

/// A connection is rejected since memory or the hub refuses it, and neither the hub nor the connections change.
pub fn rejected_are_refused()
    ensures { RejectedAreRefused }
{}

/// A connection is closed for a failed transfer or the end of its peer just after the transport reported that.
pub fn closings_are_reported()
    ensures { ClosingsAreReported }
{}
