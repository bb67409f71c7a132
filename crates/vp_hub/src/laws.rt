//! Theorems about hubs. Each is the contract of a function that does nothing.

ghost use Rattle.vp_hub.specs.Heads.{IsCutIntoHeads};
ghost use Rattle.vp_hub.specs.Pieces.{NewStreamsAreOpen, NewStreamsHaveNoBytes, RunsAddAcceptedPieces};
ghost use Rattle.vp_hub.specs.Pieces.{RunsEndAtAcceptedEnds};
ghost use Rattle.vp_hub.specs.InOrder.{HitsCostNothing, MissesCostTheLeast, NextFrameCostsOne};
ghost use Rattle.vp_hub.specs.InOrder.{SameFrameCostsNone};
ghost use Rattle.vp_hub.specs.Plain.{NoRoomIsNone, PlainCosts, PlainCaches, PlainHubsStay, PlainRunsStay};
ghost use Rattle.vp_hub.specs.Plain.{CursorsCostNoMore};
ghost use Rattle.vp_hub.specs.Lines.{LinesEndOnce};
ghost use Rattle.vp_hub.specs.Sessions.{AllButTheLastAreWritten};
ghost use Rattle.vp_hub.specs.Standing.{StandsToShut, IsTooManyByHistory};
ghost use Rattle.vp_hub.specs.Turns.{HistoriesAreCut};
ghost use Rattle.vp_hub.specs.WithoutStills.{StillsAreOptional};
ghost use Rattle.vp_hub.specs.View.{AnswersAlike, NewHubsAnswerAlike, RunsAreIsolated, RunsAreJoined};

/// The bytes of a connection are split into request heads, and the response is that to these heads.
pub fn cut_into_heads()
    ensures { IsCutIntoHeads }
{}

/// All bytes of a connection since it was opened are split into request heads. Each is answered at the event that
/// brings its last byte.
pub fn histories_are_cut()
    ensures { HistoriesAreCut }
{}

/// Two consecutive runs are one run.
pub fn runs_are_joined()
    ensures { RunsAreJoined }
{}

/// Isolation: in every run, each connection gets the results that its own view determines.
pub fn runs_are_isolated()
    ensures { RunsAreIsolated }
{}

/// If the views of a connection are equal in two runs, its results are equal. The two hubs may cache different numbers
/// of pictures; they show no WebP files.
pub fn answers_alike()
    ensures alike { AnswersAlike }
    ensures new { NewHubsAnswerAlike }
{}

/// In every run, a stream's bytes are its accepted pieces; a new stream has none. It is open until an `End` for it is
/// accepted, and then has ended, with the fault that its bytes have, if any.
pub fn bytes_are_accepted_pieces()
    ensures runs { RunsAddAcceptedPieces }
    ensures new { NewStreamsHaveNoBytes }
    ensures ends { RunsEndAtAcceptedEnds }
    ensures open { NewStreamsAreOpen }
{}

/// A connection is there from its accepted `Open` to its `Shut`.
pub fn stands_to_shut()
    ensures { StandsToShut }
{}

/// An `Open` is refused with `TooMany` exactly if there are 64 others, according to the history before it.
pub fn is_too_many_by_history()
    ensures { IsTooManyByHistory }
{}

/// A hub without cursors counts the packets from the last key packet on for a picture that isn't cached, caches as
/// ever, and stays without cursors. With cursors no request decodes more packets than that.
pub fn plain_hubs_count_as_before()
    ensures none { NoRoomIsNone }
    ensures costs { PlainCosts }
    ensures caches { PlainCaches }
    ensures stays { PlainHubsStay }
    ensures runs { PlainRunsStay }
    ensures less { CursorsCostNoMore }
{}

/// A cached picture costs no packets, and another one the least number by a cursor of the stream or by none. After a
/// frame was decoded, with room for a cursor, the next one costs one packet at most, and the same one none.
pub fn frames_in_order_cost_one_each()
    ensures hits { HitsCostNothing }
    ensures misses { MissesCostTheLeast }
    ensures order { NextFrameCostsOne }
    ensures again { SameFrameCostsNone }
{}

/// A hub of `new` or `with_cursors`, which shows no WebP files, responds by the four routes, and each resource has one
/// content.
pub fn stills_are_optional()
    ensures { StillsAreOptional }
{}

/// However a session ends, also if a write failed, the responses to all lines but the last one are written.
pub fn replies_come_before_the_next_line()
    ensures written { AllButTheLastAreWritten }
    ensures lines { LinesEndOnce }
{}
