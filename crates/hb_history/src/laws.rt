//! Laws over every history of a connection. Each is the contract of a function that does nothing.

ghost use Rattle.hb_history.specs.Calls.{Begins, TakeAdds, NextAdds, ActAdds, WriteAdds, CallsStand, AnyCut, SameFrames};
ghost use Rattle.hb_history.specs.Waits.{DataStandsFirst};
ghost use Rattle.hb_history.specs.TakenBack.{EndsTakeBack, KeptIsRefused, KeptByErrorIsRefused, KeptByFaultIsRefused, OthersMayWait};
ghost use Rattle.hb_history.specs.Live.{LiveStreams, StreamsMove, WindowsMove};
ghost use Rattle.hb_history.specs.Taking.{TakingIsWhole};
ghost use Rattle.hb_history.specs.Sending.{ConnectionSends, StreamsSend, WindowsFit, AllIsGivenBack, InitialIsLast};
ghost use Rattle.hb_history.specs.Sending.{NeverMoreThanGranted, NeverBelowZero};
ghost use Rattle.hb_history.specs.CatchUp.{LooksKeepUp, FindsKeepUp, CallsCatchUp};
ghost use Rattle.hb_history.specs.Budget.{FindsWithin, TakesWithin, AnswersAreFew, NeverPauses, CallsWait, LooksAtAll};
ghost use Rattle.hb_history.specs.Fits.{DataFits, DataFitsEverywhere};
ghost use Rattle.hb_history.specs.Answered.{AnswersAreThose, PingsAreEchoed};
ghost use Rattle.hb_history.specs.OwnFrames.{OwnFrames};
ghost use Rattle.hb_history.specs.OwnCredits.{OwnCredits};
ghost use Rattle.hb_history.specs.Heard.{FramesAreHeard, NoneEndedIt};
ghost use Rattle.hb_history.specs.CreditExamples.{NoneIsTooFew, OnAnotherIsTooFew, MoreIsTooMuch, AllIsEnough, LessMayWait};
ghost use Rattle.hb_history.specs.OwnExamples.{NoMoreHeaders, NoEnd, NoOtherStream, NoReset, NoEndAtOnce, NoGoodbye, NoGoodbyeOfStream, NothingBehind, GoodFrames};

/// A new connection stands for nothing yet, and each call adds to the history that a connection stands for: octets taken,
/// frames looked at and what is told of them, acts of this end, octets written.
pub fn each_call_adds()
    ensures begins { Begins }
    ensures take { TakeAdds }
    ensures next { NextAdds }
    ensures act { ActAdds }
    ensures write { WriteAdds }
{}

/// After any calls a connection stands for a history. In whatever pieces octets came, the same first frames were looked at,
/// and with the same points callers were told the same.
pub fn any_calls()
    ensures stand { CallsStand }
    ensures cut { AnyCut }
    ensures frames { SameFrames }
{}

/// At most one DATA frame with payload waits to be written, and nothing stands in front of it.
pub fn data_stands_first()
    ensures { DataStandsFirst }
{}

/// Behind a reset by the peer or an error of a stream no DATA with payload of it waits to begin, and behind an error of the
/// connection none at all (RFC 9113 sections 5.4 and 6.4). An output in which some does is refused, but for an end of another stream.
pub fn ends_take_data_back()
    ensures takes { EndsTakeBack }
    ensures kept { KeptIsRefused }
    ensures kept_by_error { KeptByErrorIsRefused }
    ensures kept_by_fault { KeptByFaultIsRefused }
    ensures others { OthersMayWait }
{}

/// Unless a connection error was told, a stream has windows exactly where it is open or half-closed, and then a record of
/// what is owed on it. The streams are always what moves of streams make of them.
pub fn live_streams()
    ensures live { LiveStreams }
    ensures streams { StreamsMove }
{}

/// Unless a connection error was told, the windows are what moves of windows make of them, each as it may be; so of each
/// taking window 65,535 octets are granted, kept or owed, and never more are granted.
pub fn taking_windows_are_whole()
    ensures moves { WindowsMove }
    ensures whole { TakingIsWhole }
{}

/// Unless a connection error was told, each sending window is a sum over the history: what it began with and the peer's
/// increments, less the payload of the DATA frames that have begun. None is above 2^31 - 1, so DATA that is taken back is
/// always given back.
pub fn sending_windows_are_sums()
    ensures connection { ConnectionSends }
    ensures streams { StreamsSend }
    ensures initial { InitialIsLast }
    ensures within { WindowsFit }
    ensures back { AllIsGivenBack }
{}

/// Unless a connection error was told, no more DATA is sent than the peer granted on the connection. Where DATA with payload is
/// put, neither window is below zero afterwards.
pub fn no_data_beyond_a_window()
    ensures granted { NeverMoreThanGranted }
    ensures below { NeverBelowZero }
{}

/// While the output has room for the largest frame that can be owed, nothing is owed, whatever the peer sends: of every
/// connection that came of calls.
pub fn nothing_is_owed_with_room()
    ensures looks { LooksKeepUp }
    ensures finds { FindsKeepUp }
    ensures calls { CallsCatchUp }
{}

/// The answers to `n` octets that are taken take at most `3 * n + 64` octets of room.
pub fn answers_are_few()
    ensures finds { FindsWithin }
    ensures takes { TakesWithin }
    ensures all { AnswersAreFew }
{}

/// A caller that takes no more octets than a third of the room above 320 never waits for room with a frame in front.
pub fn never_pauses()
    ensures calls { CallsWait }
    ensures looks { LooksAtAll }
    ensures all { NeverPauses }
{}

/// Each DATA frame with payload fits both windows where it begins: it has at most 16,384 octets, and with the DATA in front of
/// it is within what the peer granted so far, on the connection and on its stream, where the SETTINGS count that are
/// acknowledged in front of it (RFC 9113 sections 6.9 and 6.9.2).
pub fn data_fits_windows()
    ensures next { DataFits }
    ensures everywhere { DataFitsEverywhere }
{}

/// Unless a connection error was told, each SETTINGS and each PING of the peer is answered once, in order: of the frames that
/// have begun and those that wait, SETTINGS and PING with ACK are exactly the answers to the frames that came. The answer to a
/// PING has its octets (RFC 9113 sections 6.5.3 and 6.7).
pub fn answers_are_put()
    ensures all { AnswersAreThose }
    ensures echo { PingsAreEchoed }
{}

/// A client that opens its first stream, and then only looks at frames, uses up octets of that stream, puts DATA on it and
/// writes, writes the opening SETTINGS, HEADERS of that stream, and behind them only answers to SETTINGS and PING, increments of
/// the connection and of the stream, and its DATA without END_STREAM; and a GOAWAY last, where a connection error was told.
pub fn own_frames_go()
    ensures { OwnFrames }
{}

/// No more HEADERS go, no END_STREAM, nothing of another stream, no RST_STREAM, no GOAWAY where no connection error was told
/// or of a stream, and nothing behind one.
pub fn own_frames_are_refused()
    ensures headers { NoMoreHeaders }
    ensures end { NoEnd }
    ensures end_at_once { NoEndAtOnce }
    ensures other_stream { NoOtherStream }
    ensures reset { NoReset }
    ensures goodbye { NoGoodbye }
    ensures goodbye_of_stream { NoGoodbyeOfStream }
    ensures behind { NothingBehind }
{}

/// Answers, increments, DATA, and the GOAWAY of a connection error may go.
pub fn own_frames_may_go()
    ensures { GoodFrames }
{}

/// As long as the stream of such a client goes on, what it granted again on the connection is at most the DATA that came, and
/// short of that by less than 32,768 octets; and so on the stream, once all that was handed out is used up and there is room for
/// a frame, unless the peer ended the stream (RFC 9113 section 6.9).
pub fn own_credits_go()
    ensures { OwnCredits }
{}

/// As long as the stream of such a client goes on, and its peer hasn't ended it, something is told of each RST_STREAM, DATA and
/// whole HEADERS of the stream; and none of these that came is RST_STREAM or has END_STREAM (RFC 9113 sections 5.1, 6.1, 6.2
/// and 6.4).
pub fn ends_are_heard()
    ensures heard { FramesAreHeard }
    ensures unended { NoneEndedIt }
{}

/// 32,768 octets that came and aren't granted again are too many, also where as many are granted elsewhere; and no more is
/// granted than came.
pub fn credits_are_refused()
    ensures few { NoneIsTooFew }
    ensures elsewhere { OnAnotherIsTooFew }
    ensures much { MoreIsTooMuch }
    ensures all { AllIsEnough }
    ensures less { LessMayWait }
{}
