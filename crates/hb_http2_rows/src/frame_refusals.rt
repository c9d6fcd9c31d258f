//! A frame for each condition of each refusal.

/// Each frame, and the fault as `{:?}` shows it where the frame stands at offset 0. A line that begins with `#` says
/// what the next one is.
pub const REFUSALS: &str = "\
# A length of 16,385, known at nine octets.
004001000000000001; FrameFault { code: 6, scope: Connection, at: 0, row: 2, kind: 0, flags: 0 }
# A length of 2^24 - 1 on an unknown type.
fffffffeff00000007; FrameFault { code: 6, scope: Connection, at: 0, row: 2, kind: 254, flags: 255 }
# The length goes before the stream.
004001000000000000; FrameFault { code: 6, scope: Connection, at: 0, row: 2, kind: 0, flags: 0 }
# DATA on stream 0.
00000100000000000061; FrameFault { code: 1, scope: Connection, at: 0, row: 5, kind: 0, flags: 0 }
# DATA on stream 0 with its reserved bit.
00000100008000000061; FrameFault { code: 1, scope: Connection, at: 0, row: 5, kind: 0, flags: 0 }
# HEADERS on stream 0.
00000101040000000082; FrameFault { code: 1, scope: Connection, at: 0, row: 5, kind: 1, flags: 4 }
# PRIORITY on stream 0.
0000050200000000000000000100; FrameFault { code: 1, scope: Connection, at: 0, row: 5, kind: 2, flags: 0 }
# RST_STREAM on stream 0.
00000403000000000000000001; FrameFault { code: 1, scope: Connection, at: 0, row: 5, kind: 3, flags: 0 }
# The stream goes before the length of the payload.
000003030000000000000000; FrameFault { code: 1, scope: Connection, at: 0, row: 5, kind: 3, flags: 0 }
# SETTINGS on stream 1.
000000040000000001; FrameFault { code: 1, scope: Connection, at: 0, row: 6, kind: 4, flags: 0 }
# PING on stream 1.
0000080600000000013132333435363738; FrameFault { code: 1, scope: Connection, at: 0, row: 6, kind: 6, flags: 0 }
# GOAWAY on stream 2147483647.
00000807007fffffff3132333435363738; FrameFault { code: 1, scope: Connection, at: 0, row: 6, kind: 7, flags: 0 }
# PUSH_PROMISE on a stream.
00000405040000000100000002; FrameFault { code: 1, scope: Connection, at: 0, row: 7, kind: 5, flags: 4 }
# PUSH_PROMISE on stream 0.
00000405040000000000000002; FrameFault { code: 1, scope: Connection, at: 0, row: 7, kind: 5, flags: 4 }
# PADDED DATA without an octet for the padding's length.
000000000800000001; FrameFault { code: 6, scope: Connection, at: 0, row: 8, kind: 0, flags: 8 }
# PADDED HEADERS without an octet for the padding's length.
000000010800000001; FrameFault { code: 6, scope: Connection, at: 0, row: 8, kind: 1, flags: 8 }
# HEADERS with four octets of priority.
00000401200000000100000001; FrameFault { code: 6, scope: Connection, at: 0, row: 8, kind: 1, flags: 32 }
# PADDED HEADERS with four octets of priority.
0000050128000000010000000001; FrameFault { code: 6, scope: Connection, at: 0, row: 8, kind: 1, flags: 40 }
# DATA with one octet of padding more than is left.
0000020008000000010261; FrameFault { code: 1, scope: Connection, at: 0, row: 9, kind: 0, flags: 8 }
# DATA with 255 octets of padding and none left.
000001000800000001ff; FrameFault { code: 1, scope: Connection, at: 0, row: 9, kind: 0, flags: 8 }
# HEADERS with padding more than is left.
000003010800000001036162; FrameFault { code: 1, scope: Connection, at: 0, row: 9, kind: 1, flags: 8 }
# HEADERS with padding that takes the priority's octets.
000006012800000001010000000100; FrameFault { code: 1, scope: Connection, at: 0, row: 9, kind: 1, flags: 40 }
# PRIORITY of 4 octets.
00000402000000000131323334; FrameFault { code: 6, scope: Connection, at: 0, row: 10, kind: 2, flags: 0 }
# PRIORITY of 6 octets.
000006020000000001313233343536; FrameFault { code: 6, scope: Connection, at: 0, row: 10, kind: 2, flags: 0 }
# RST_STREAM of 3 octets.
000003030000000001313233; FrameFault { code: 6, scope: Connection, at: 0, row: 10, kind: 3, flags: 0 }
# RST_STREAM of 5 octets.
0000050300000000013132333435; FrameFault { code: 6, scope: Connection, at: 0, row: 10, kind: 3, flags: 0 }
# SETTINGS of 5 octets.
0000050400000000003132333435; FrameFault { code: 6, scope: Connection, at: 0, row: 10, kind: 4, flags: 0 }
# SETTINGS of 7 octets.
00000704000000000031323334353637; FrameFault { code: 6, scope: Connection, at: 0, row: 10, kind: 4, flags: 0 }
# SETTINGS with ACK and a setting.
000006040100000000000300000001; FrameFault { code: 6, scope: Connection, at: 0, row: 10, kind: 4, flags: 1 }
# PING of 7 octets.
00000706000000000031323334353637; FrameFault { code: 6, scope: Connection, at: 0, row: 10, kind: 6, flags: 0 }
# PING of 9 octets.
000009060000000000313233343536373839; FrameFault { code: 6, scope: Connection, at: 0, row: 10, kind: 6, flags: 0 }
# GOAWAY of 7 octets.
00000707000000000031323334353637; FrameFault { code: 6, scope: Connection, at: 0, row: 10, kind: 7, flags: 0 }
# WINDOW_UPDATE of 3 octets.
000003080000000001000001; FrameFault { code: 6, scope: Connection, at: 0, row: 10, kind: 8, flags: 0 }
# WINDOW_UPDATE of 5 octets.
0000050800000000000000000001; FrameFault { code: 6, scope: Connection, at: 0, row: 10, kind: 8, flags: 0 }
# ENABLE_PUSH of 2.
000006040000000000000200000002; FrameFault { code: 1, scope: Connection, at: 0, row: 11, kind: 4, flags: 0 }
# MAX_FRAME_SIZE of 16,383.
000006040000000000000500003fff; FrameFault { code: 1, scope: Connection, at: 0, row: 11, kind: 4, flags: 0 }
# MAX_FRAME_SIZE of 16,777,216 behind another setting.
00000c040000000000000300000001000501000000; FrameFault { code: 1, scope: Connection, at: 0, row: 11, kind: 4, flags: 0 }
# An increment of 0 on stream 0.
00000408000000000000000000; FrameFault { code: 1, scope: Connection, at: 0, row: 13, kind: 8, flags: 0 }
# An increment of 0 with its reserved bit.
00000408000000000080000000; FrameFault { code: 1, scope: Connection, at: 0, row: 13, kind: 8, flags: 0 }";
