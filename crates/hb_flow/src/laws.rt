//! Laws about the definitions that the contracts cite. Each is the contract of a function that does nothing.

ghost use Rattle.hb_flow.specs.Laws.{MovesAddUp, ConnectionSends, StreamSends, ConnectionTakes, StreamTakes, NeverBeyond, ResizesEach};

/// After one more move the windows are as that move makes them.
pub fn moves_add_up()
    ensures { MovesAddUp }
{}

/// Each sending window is a sum over the moves: the connection's from 65,535 on, a stream's from the peer's initial
/// size of now on, since the stream got its windows.
pub fn sending_windows_are_sums()
    ensures connection { ConnectionSends }
    ensures stream { StreamSends }
{}

/// The octets of each taking window are granted, kept or owed, 65,535 together: so never more are granted.
pub fn taking_windows_are_whole()
    ensures connection { ConnectionTakes }
    ensures stream { StreamTakes }
{}

/// Where DATA is sent, neither window is below zero afterwards.
pub fn no_data_goes_beyond_a_window()
    ensures { NeverBeyond }
{}

/// A change of the initial size moves the sending window of each stream that has windows, and gives none to others.
pub fn each_stream_is_resized()
    ensures { ResizesEach }
{}
