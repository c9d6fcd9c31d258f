//! HTTP/2's numbers: frame types and flags (RFC 9113 section 6), settings (section 6.5.2) and error codes (section 7).

/// The type of DATA frames (section 6.1).
pub const DATA: u8 = 0;

/// The type of HEADERS frames (section 6.2).
pub const HEADERS: u8 = 1;

/// The type of PRIORITY frames (section 6.3).
pub const PRIORITY: u8 = 2;

/// The type of RST_STREAM frames (section 6.4).
pub const RST_STREAM: u8 = 3;

/// The type of SETTINGS frames (section 6.5).
pub const SETTINGS: u8 = 4;

/// The type of PUSH_PROMISE frames (section 6.6).
pub const PUSH_PROMISE: u8 = 5;

/// The type of PING frames (section 6.7).
pub const PING: u8 = 6;

/// The type of GOAWAY frames (section 6.8).
pub const GOAWAY: u8 = 7;

/// The type of WINDOW_UPDATE frames (section 6.9).
pub const WINDOW_UPDATE: u8 = 8;

/// The type of CONTINUATION frames (section 6.10).
pub const CONTINUATION: u8 = 9;

/// The flag ACK of SETTINGS and PING.
pub const ACK_FLAG: u8 = 1;

/// The flag END_STREAM of DATA and HEADERS.
pub const END_STREAM_FLAG: u8 = 1;

/// The flag END_HEADERS of HEADERS and CONTINUATION.
pub const END_HEADERS_FLAG: u8 = 4;

/// The flag PADDED of DATA and HEADERS.
pub const PADDED_FLAG: u8 = 8;

/// The flag PRIORITY of HEADERS.
pub const PRIORITY_FLAG: u8 = 0x20;

/// The setting SETTINGS_ENABLE_PUSH.
pub const ENABLE_PUSH: u32 = 2;

/// The setting SETTINGS_MAX_CONCURRENT_STREAMS.
pub const MAX_CONCURRENT_STREAMS: u32 = 3;

/// The setting SETTINGS_INITIAL_WINDOW_SIZE.
pub const INITIAL_WINDOW_SIZE: u32 = 4;

/// The setting SETTINGS_MAX_FRAME_SIZE.
pub const MAX_FRAME_SIZE: u32 = 5;

/// The value of SETTINGS_MAX_FRAME_SIZE before any is set, and the least that may be set.
pub const FIRST_FRAME_SIZE: u32 = 16_384;

/// The greatest value of SETTINGS_MAX_FRAME_SIZE, 2^24 - 1.
pub const LARGEST_FRAME_SIZE: u32 = 16_777_215;

/// The error code PROTOCOL_ERROR.
pub const PROTOCOL_ERROR: u32 = 1;

/// The error code FLOW_CONTROL_ERROR.
pub const FLOW_CONTROL_ERROR: u32 = 3;

/// The error code STREAM_CLOSED.
pub const STREAM_CLOSED: u32 = 5;

/// The error code FRAME_SIZE_ERROR.
pub const FRAME_SIZE_ERROR: u32 = 6;

/// The error code REFUSED_STREAM.
pub const REFUSED_STREAM: u32 = 7;

/// The largest number of 31 bits, 2^31 - 1: of a stream (section 5.1.1), of a window's size and content (section 6.9.1)
/// and of an increment (section 6.9).
pub const LARGEST: u32 = 2_147_483_647;
