//! Floods that are known of HTTP/2, and how much they make a connection answer, tell and hold.

/// Rows of steps, in the words of `desk` and `octets`.
pub const ROWS: &str = "\
streams that are reset at once: server; come odd 1 2001 0000010104@82 0000040300@00000008; told 2000; streams 0; room 65536; \
    space 16393; left 0; sent; come 0000010104000007d182; told 1; streams 1
streams that are reset for errors: server; come odd 1 2001 0000010104@82 0000010104@82; told 2000; streams 0; room 52536; \
    space 16393; sent odd 1 2001 0000040300@00000001
more errors of streams than answers have room: server; come odd 1 11043 0000010104@82 0000010104@82; told 10044; room 250; space 0; \
    left 0; sent odd 1 10045 0000040300@00000001; told 998; room 59049; space 16393; sent odd 10045 11043 0000040300@00000001; streams 0
PING: server; come all 0 4000 00000806000000000000000000@; told 0; room 239; space 0; left 2443; wrote 8; room 247; space 0; wrote 8; \
    room 255; space 0; wrote 1; room 239; space 0; left 2443; sent all 1 3842 00000806010000000000000000@; room 62850; space 16393; \
    left 0; sent all 3842 4000 00000806010000000000000000@
SETTINGS: server; come all 0 8000 SET; told 0; room 250; space 0; left 6440; sent all 0 7254 ACK; room 58822; space 16393; left 0; \
    sent all 0 746 ACK
settings in one frame: server; come 003ffc040000000000 000400000000*2730; room 65527; sent ACK
fragments of a header block: server; come 000010010000000001 82*16; come all 0 2047 000010090000000001 82*16; told 0; streams 0; \
    room 65536; space 16393; come 000010090000000001 82*16; told 1; room 65519; space 0; sent 000008070000000000000000000000000b; space 0
fragments without octets: server; come 000001010000000001 82; come all 0 10000 000000090000000001; told 0; streams 0; room 65536; \
    space 16393; come 000000090400000001; told 1; streams 1; sent
DATA without octets: server; come 00000101040000000182; come all 0 1000 000000000000000001; told 1001; streams 1; room 65536; \
    space 16393; sent
DATA of padding alone: server; come 00000101040000000182; come all 0 127 0001000008 00000001 ff 00*255; told 128; sent; \
    come 0001000008 00000001 ff 00*255; told 1; sent 00000408000000000000008000 00000408000000000100008000
increments of one octet: server; come 00000101040000000182; come all 0 1000 00000408000000000000000001 00000408000000000100000001; \
    told 1; room 65536; sent; some 1 20000 16384; wrote 16393; some 1 20000 16384; wrote 16393; some 1 20000 16384; wrote 16393; \
    some 1 20000 16384; wrote 16393; some 1 20000 999; wrote 1008; some 1 1 0
priorities: server; come all 1 3000 0000050200@0000000000; told 0; streams 0; room 65536; space 16393; sent
tables that are emptied: server; come odd 1 2001 0000050104@203fe11f82 0000040300@00000008; told 2000; streams 0; room 65536; sent
tables that are emptied and filled: server; come odd 1 2001 0000090104@203fe11f4001610162 0000040300@00000008; told 2000; streams 0; \
    room 65536; come 0000050104000007d1203fe11fbe; told 1; sent 0000080700000000000000 07cf 00000009; space 0
streams of this end: client; opens 1 100; streams 100; room 63735; full; streams 100; room 63735; come 00000403000000000100000008; \
    told 1; streams 99; opens 201 1; full
";
