//! Frames as another implementation, Debian's python3-hyperframe, writes and reads them. bench/tables/frame_vectors.py
//! prints the lines of the table.

/// The octets of each frame, and the frame as `{:?}` shows it.
pub const VECTORS: &str = "\
00000500000000000168656c6c6f; Frame { flags: 0, stream: 1, body: Payload { bytes: [104, 101, 108, 108, 111], counted: 5 } }
000000000100000003; Frame { flags: 1, stream: 3, body: Payload { bytes: [], counted: 0 } }
000003000800000001016100; Frame { flags: 8, stream: 1, body: Payload { bytes: [97], counted: 3 } }
00010300097fffffffff616263 00*255; Frame { flags: 9, stream: 2147483647, body: Payload { bytes: [97, 98, 99], counted: 259 } }
00000100080000000500; Frame { flags: 8, stream: 5, body: Payload { bytes: [], counted: 1 } }
0000080008000000050700000000000000; Frame { flags: 8, stream: 5, body: Payload { bytes: [], counted: 8 } }
0000020104000000018286; Frame { flags: 4, stream: 1, body: Headers { block: [130, 134] } }
000000010000000007; Frame { flags: 0, stream: 7, body: Headers { block: [] } }
000005010d000000010388000000; Frame { flags: 13, stream: 1, body: Headers { block: [136] } }
00000601200000000980000003c882; Frame { flags: 32, stream: 9, body: Headers { block: [130] } }
00000501240000000980000003c8; Frame { flags: 36, stream: 9, body: Headers { block: [] } }
0000110128000000090980000003c88485000000000000000000; Frame { flags: 40, stream: 9, body: Headers { block: [132, 133] } }
0000050200000000050000000110; Frame { flags: 0, stream: 5, body: Priority }
00000403000000000100000008; Frame { flags: 0, stream: 1, body: Reset { code: 8 } }
000004030000000003ffffffff; Frame { flags: 0, stream: 3, body: Reset { code: 4294967295 } }
000000040000000000; Frame { flags: 0, stream: 0, body: Settings { pairs: [] } }
00002404000000000000020000000000030000006400040000ffff00050000400000060000400000ff00000007; Frame { flags: 0, stream: 0, body: Settings { pairs: [0, 2, 0, 0, 0, 0, 0, 3, 0, 0, 0, 100, 0, 4, 0, 0, 255, 255, 0, 5, 0, 0, 64, 0, 0, 6, 0, 0, 64, 0, 0, 255, 0, 0, 0, 7] } }
00000c040000000000000500ffffff000200000001; Frame { flags: 0, stream: 0, body: Settings { pairs: [0, 5, 0, 255, 255, 255, 0, 2, 0, 0, 0, 1] } }
000000040100000000; Frame { flags: 1, stream: 0, body: Settings { pairs: [] } }
00000806000000000001020304fcfdfeff; Frame { flags: 0, stream: 0, body: Ping { value: 72623863950606079 } }
0000080601000000000000000000000000; Frame { flags: 1, stream: 0, body: Ping { value: 0 } }
0000080700000000007fffffff00000002; Frame { flags: 0, stream: 0, body: GoAway { last: 2147483647, code: 2 } }
000010070000000000000000000000000b746f6f206d616e79; Frame { flags: 0, stream: 0, body: GoAway { last: 0, code: 11 } }
00000408000000000000000001; Frame { flags: 0, stream: 0, body: Window { increment: 1 } }
0000040800000000077fffffff; Frame { flags: 0, stream: 7, body: Window { increment: 2147483647 } }
0000050900000000014001610162; Frame { flags: 0, stream: 1, body: Continuation { block: [64, 1, 97, 1, 98] } }
000000090400000001; Frame { flags: 4, stream: 1, body: Continuation { block: [] } }
0000140a00000000000009612e6578616d706c6568323d223a34343322; Frame { flags: 0, stream: 0, body: Unknown { kind: 10 } }
000003fea500000004000102; Frame { flags: 165, stream: 4, body: Unknown { kind: 254 } }
00000500008000000168656c6c6f; Frame { flags: 0, stream: 1, body: Payload { bytes: [104, 101, 108, 108, 111], counted: 5 } }
0001030009ffffffffff616263 00*255; Frame { flags: 9, stream: 2147483647, body: Payload { bytes: [97, 98, 99], counted: 259 } }
00000806008000000001020304fcfdfeff; Frame { flags: 0, stream: 0, body: Ping { value: 72623863950606079 } }
00000403ff0000000100000008; Frame { flags: 255, stream: 1, body: Reset { code: 8 } }
00000806280000000001020304fcfdfeff; Frame { flags: 40, stream: 0, body: Ping { value: 72623863950606079 } }
00000509fb000000014001610162; Frame { flags: 251, stream: 1, body: Continuation { block: [64, 1, 97, 1, 98] } }
00000500f60000000168656c6c6f; Frame { flags: 246, stream: 1, body: Payload { bytes: [104, 101, 108, 108, 111], counted: 5 } }
000004080000000007ffffffff; Frame { flags: 0, stream: 7, body: Window { increment: 2147483647 } }
000008070000000000ffffffff00000002; Frame { flags: 0, stream: 0, body: GoAway { last: 2147483647, code: 2 } }
";
