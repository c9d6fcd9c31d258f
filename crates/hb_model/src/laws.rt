//! Laws over every run of the machine. Each is the contract of a function that does nothing.

ghost use Rattle.hb_model.specs.Laws.{RunsObeyCalls, RunsObeyDials, RunsObeyEnds, RunsHold, RunsObeyMessages, RunsApplyAtOnce, RunsObeyConnections, RunsObeyRequests};
ghost use Rattle.hb_model.specs.Laws.{RunsObeyWindows, RunsPutAll, RunsObeyInner, RunsLookAtAll, RunsHearAll, RunsSendOwnFrames};

/// The calls on each link stand in order: it is dialled and opened once, then read up to its end and written, and closed once.
pub fn calls_are_in_order()
    ensures { RunsObeyCalls }
{}

/// The control plane is dialled at the start, and behind each tick at which no link to it lives.
pub fn dials_are_due()
    ensures { RunsObeyDials }
{}

/// A link to the control plane is closed exactly for the first cause that ended it, and before all else but calls that move
/// nothing and the one write behind a connection error.
pub fn ends_are_first()
    ensures { RunsObeyEnds }
{}

/// On each link the responses that were applied are what the first messages of its DATA are read as; and what is held is what
/// the responses of all links make, in order. Each is applied in the read that completes it.
pub fn messages_are_applied()
    ensures held { RunsHold }
    ensures messages { RunsObeyMessages }
    ensures at_once { RunsApplyAtOnce }
{}

/// Nothing is looked at, applied, refused, used up or put on a link but while it is open and goes on; and at each entry every
/// whole frame that came on a link that goes on is among the frames looked at, and none of them ended its stream.
pub fn all_is_looked_at()
    ensures inner { RunsObeyInner }
    ensures looked { RunsLookAtAll }
    ensures heard { RunsHearAll }
{}

/// The connection of each link stands for the link's moves, the bytes that came on it and those that went.
pub fn connections_are_histories()
    ensures { RunsObeyConnections }
{}

/// The DATA that went on a link's stream is a front of its requests, each in the spelling of a message: the first two, and an
/// answer to each response.
pub fn requests_go_in_order()
    ensures { RunsObeyRequests }
{}

/// The frames that went on a link are the opening SETTINGS, HEADERS of stream 1, and behind them only answers to SETTINGS and
/// PING, increments of the connection and of stream 1, and DATA of stream 1 without END_STREAM; and a GOAWAY last, where a
/// connection error was told.
pub fn own_frames_go()
    ensures { RunsSendOwnFrames }
{}

/// Each DATA frame with payload fits both windows where it begins to go on a link: it is within what the peer granted by the
/// bytes that came on the link so far (RFC 9113 sections 6.9 and 6.9.2).
pub fn data_fits_windows()
    ensures { RunsObeyWindows }
{}

/// Where nothing waits to be written on a link that lives, and nothing more happens on it by itself, whole frames went on it:
/// the answers to all SETTINGS and PING frames that came, and all requests that are due, but for octets that wait because the
/// peer's window of the connection or of the stream is used up (RFC 9113 sections 6.9 and 6.9.2). Of the DATA that came all is
/// granted again but for fewer than 32,768 octets, on the connection and on the stream, and no more than came.
pub fn all_is_put()
    ensures { RunsPutAll }
{}
