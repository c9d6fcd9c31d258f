//! Conversations of one end with a peer, python3-h2, as a machine that was written from RFC 9113 has this end speak.
//! bench/tables/conversations.py prints this file.
//!
//! A conversation begins with the role of this end and a name. `take` are octets that the peer wrote, in the words of
//! `octets`, and each line with `>` behind it is something that happens: `opened` with the stream, `end` where the peer ends
//! it, the size of the header list and its headers, or `+` where that is large, `chunk`, `ended`, `reset`, `broken`, `gone`
//! and `fault`. `open`, with the number that is to be answered, `status`, `end`, `reset`, `credit` and `some`, with how many
//! octets are to be put of those that follow, are acts of this end. `output`, which `more` goes on with, is all that waits
//! then; `wrote` is how much of it was written. The comments say what h2 saw of that; h2 knows nothing of frames that were
//! written by hand. Each step ends with `\n`; a name stands alone on a line of this file, steps as many as have room.

// server one request: h2 saw RemoteSettingsChanged; SettingsAcknowledged; ResponseReceived 1 :status=200; DataReceived 1 5;
// DataReceived 1 0; StreamEnded 1
// server the peer ends with its headers: h2 saw RemoteSettingsChanged; SettingsAcknowledged; ResponseReceived 1 :status=204;
// StreamEnded 1
// server the peer ends with its last octets: h2 saw RemoteSettingsChanged; SettingsAcknowledged; ResponseReceived 1 :status=200;
// DataReceived 1 20; DataReceived 1 0; StreamEnded 1
// server this end ends first: h2 saw RemoteSettingsChanged; SettingsAcknowledged; ResponseReceived 1 :status=200; DataReceived 1 0;
// StreamEnded 1
// server statuses: h2 saw RemoteSettingsChanged; SettingsAcknowledged; ResponseReceived 1 :status=200; StreamEnded 1;
// ResponseReceived 3 :status=204; StreamEnded 3; ResponseReceived 5 :status=206; StreamEnded 5; ResponseReceived 7 :status=304;
// StreamEnded 7; ResponseReceived 9 :status=400; StreamEnded 9; ResponseReceived 11 :status=404; StreamEnded 11;
// ResponseReceived 13 :status=500; StreamEnded 13; ResponseReceived 15 :status=431; StreamEnded 15; ResponseReceived 17 :status=503;
// StreamEnded 17; ResponseReceived 19 :status=599; StreamEnded 19; InformationalResponseReceived 21 :status=100;
// ResponseReceived 23 :status=999; StreamEnded 23; ResponseReceived 21 :status=200; StreamEnded 21
// server padding counts: h2 saw RemoteSettingsChanged; SettingsAcknowledged; WindowUpdated 0 32909; WindowUpdated 1 49038
pub const PART_1: &[u8] = b"\
server one request\n\
output OWN_SERVER\nwrote 21\ntake PRE H2_CLIENT 0000130104000000014287bdab4e9c17b7ff4188081702e15ddb8f03\n\
> opened 1 open 99 :method=CONNECT,:authority=10.0.1.7:80\ntake ACK\noutput ACK\nwrote 9\nstatus 1 200\noutput 0000020104000000012088\n\
wrote 11\ntake 00000500000000000168656c6c6f\n> chunk 1 68656c6c6f\nsome 1 5 776f726c64\noutput 000005000000000001776f726c64\nwrote 14\n\
take 000000000100000001\n> chunk 1\n> ended 1\nend 1\noutput 000000000100000001\nwrote 9\n\
server the peer ends with its headers\n\
take PRE H2_CLIENT 0000130105000000014287bdab4e9c17b7ff4188081702e15ddb8f03\n> opened 1 end 99 :method=CONNECT,:authority=10.0.1.7:80\n\
status 1 204 end\noutput OWN_SERVER ACK 0000020105000000012089\nwrote 41\ntake ACK\n\
server the peer ends with its last octets\n\
take PRE H2_CLIENT 0000130104000000014287bdab4e9c17b7ff4188081702e15ddb8f03\n> opened 1 open 99 :method=CONNECT,:authority=10.0.1.7:80\n\
take 00012c000100000001 61*200 41*100\n> chunk 1 61*200 41*100\n> ended 1\nstatus 1 200\noutput OWN_SERVER ACK 0000020104000000012088\n\
wrote 41\nsome 1 20 62*20\noutput 000014000000000001 62*20\nwrote 29\nend 1\noutput 000000000100000001\nwrote 9\ntake ACK\n\
server this end ends first\n\
take PRE H2_CLIENT 0000130104000000014287bdab4e9c17b7ff4188081702e15ddb8f03\n> opened 1 open 99 :method=CONNECT,:authority=10.0.1.7:80\n\
status 1 200\nend 1\noutput OWN_SERVER ACK 0000020104000000012088000000000100000001\nwrote 50\ntake ACK 000028000000000001 61*27 41*13\n\
> chunk 1 61*27 41*13\ncredit 1 40\ntake 000028000100000001 62*27 42*13\n> chunk 1 62*27 42*13\n> ended 1\n\
server statuses\n\
take PRE H2_CLIENT 0000130104000000014287bdab4e9c17b7ff4188081702e15ddb8f03\n> opened 1 open 99 :method=CONNECT,:authority=10.0.1.7:80\n\
status 1 200 end\ntake 00000b010400000003bf4188081702ecaeedc781\n> opened 3 open 99 :method=CONNECT,:authority=10.0.3.7:80\n\
status 3 204 end\ntake 00000b010400000005c04188081702edaeedc781\n> opened 5 open 99 :method=CONNECT,:authority=10.0.5.7:80\n\
status 5 206 end\ntake 00000b010400000007c14188081702eeaeedc781\n> opened 7 open 99 :method=CONNECT,:authority=10.0.7.7:80\n\
status 7 304 end\ntake 00000b010400000009c24188081702efaeedc781\n> opened 9 open 99 :method=CONNECT,:authority=10.0.9.7:80\n\
status 9 400 end\ntake 00000c01040000000bc34189081702e10aeedc781f\n> opened 11 open 100 :method=CONNECT,:authority=10.0.11.7:80\n\
status 11 404 end\ntake 00000c01040000000dc44189081702e165776e3c0f\n> opened 13 open 100 :method=CONNECT,:authority=10.0.13.7:80\n\
status 13 500 end\ntake 00000c01040000000fc54189081702e16d776e3c0f\n> opened 15 open 100 :method=CONNECT,:authority=10.0.15.7:80\n\
status 15 431 end\ntake 00000c010400000011c64189081702e175776e3c0f\n> opened 17 open 100 :method=CONNECT,:authority=10.0.17.7:80\n\
status 17 503 end\ntake 00000c010400000013c74189081702e17d776e3c0f\n> opened 19 open 100 :method=CONNECT,:authority=10.0.19.7:80\n\
status 19 599 end\ntake 00000c010400000015c84189081702e20aeedc781f\n> opened 21 open 100 :method=CONNECT,:authority=10.0.21.7:80\n\
status 21 100\ntake 00000c010400000017c94189081702e265776e3c0f\n> opened 23 open 100 :method=CONNECT,:authority=10.0.23.7:80\n\
status 23 999 end\noutput OWN_SERVER ACK 0000020105000000012088000001010500000003890000010105000000058a0000010105000000078b00000101\n\
more 05000000098c00000101050000000b8d00000101050000000d8e00000501050000000f080334333100000501050000001108033530\n\
more 33000005010500000013080335393900000501040000001508033130300000050105000000170803393939\nwrote 171\ntake ACK\nstatus 21 200 end\n\
output 00000101050000001588\nwrote 10\n\
server padding counts\n\
take PRE H2_CLIENT 0000130104000000014287bdab4e9c17b7ff4188081702e15ddb8f03\n> opened 1 open 99 :method=CONNECT,:authority=10.0.1.7:80\n\
take 00000100080000000100\n> chunk 1\ntake 000100000800000001ff 00*255\n> chunk 1\ntake 00000c0008000000010a63 00*10\n> chunk 1 63\n\
take 003f80000800000001ff 64*10667 44*5333 00*255\n> chunk 1 64*10667 44*5333\ntake 004000000800000001ff 65*10752 45*5376 00*255\n\
> chunk 1 65*10752 45*5376\ntake 004000000800000001ff 66*10752 46*5376 00*255\n> chunk 1 66*10752 46*5376\n\
take 00006600080000000101 67*67 47*33 00\n> chunk 1 67*67 47*33\noutput OWN_SERVER ACK 0000040800000000000000808d\nwrote 43\ntake ACK\n\
credit 1 48000\noutput 0000040800000000010000bf8e\nwrote 13\ntake 0000110009000000010968686868686868 00*9\n> chunk 1 68686868686868\n\
> ended 1\n\
";

// server much padding is granted again by itself: h2 saw RemoteSettingsChanged; SettingsAcknowledged; WindowUpdated 0 32768;
// WindowUpdated 1 32768
// server the peer fills its windows: h2 saw RemoteSettingsChanged; SettingsAcknowledged; WindowUpdated 0 32768; WindowUpdated 0 49150;
// WindowUpdated 1 32768; WindowUpdated 0 32768
// server this end fills its windows: h2 saw RemoteSettingsChanged; SettingsAcknowledged; ResponseReceived 1 :status=200;
// ResponseReceived 3 :status=200; DataReceived 1 16384; DataReceived 1 16384; DataReceived 1 16384; DataReceived 1 16383;
// DataReceived 3 90; DataReceived 1 10; DataReceived 1 0; StreamEnded 1; DataReceived 3 0; StreamEnded 3
pub const PART_2: &[u8] = b"\
server much padding is granted again by itself\n\
output OWN_SERVER\nwrote 21\ntake PRE H2_CLIENT 0000130104000000014287bdab4e9c17b7ff4188081702e15ddb8f03\n\
> opened 1 open 99 :method=CONNECT,:authority=10.0.1.7:80\ntake 000100000800000001ff 00*255\n> chunk 1\ntake 000100000800000001ff 00*255\n\
> chunk 1\ntake 000100000800000001ff 00*255\n> chunk 1\ntake 000100000800000001ff 00*255\n> chunk 1\ntake 000100000800000001ff 00*255\n\
> chunk 1\ntake 000100000800000001ff 00*255\n> chunk 1\ntake 000100000800000001ff 00*255\n> chunk 1\ntake 000100000800000001ff 00*255\n\
> chunk 1\ntake 000100000800000001ff 00*255\n> chunk 1\ntake 000100000800000001ff 00*255\n> chunk 1\ntake 000100000800000001ff 00*255\n\
> chunk 1\ntake 000100000800000001ff 00*255\n> chunk 1\ntake 000100000800000001ff 00*255\n> chunk 1\ntake 000100000800000001ff 00*255\n\
> chunk 1\ntake 000100000800000001ff 00*255\n> chunk 1\ntake 000100000800000001ff 00*255\n> chunk 1\ntake 000100000800000001ff 00*255\n\
> chunk 1\ntake 000100000800000001ff 00*255\n> chunk 1\ntake 000100000800000001ff 00*255\n> chunk 1\ntake 000100000800000001ff 00*255\n\
> chunk 1\ntake 000100000800000001ff 00*255\n> chunk 1\ntake 000100000800000001ff 00*255\n> chunk 1\ntake 000100000800000001ff 00*255\n\
> chunk 1\ntake 000100000800000001ff 00*255\n> chunk 1\ntake 000100000800000001ff 00*255\n> chunk 1\ntake 000100000800000001ff 00*255\n\
> chunk 1\ntake 000100000800000001ff 00*255\n> chunk 1\ntake 000100000800000001ff 00*255\n> chunk 1\ntake 000100000800000001ff 00*255\n\
> chunk 1\ntake 000100000800000001ff 00*255\n> chunk 1\ntake 000100000800000001ff 00*255\n> chunk 1\ntake 000100000800000001ff 00*255\n\
> chunk 1\ntake 000100000800000001ff 00*255\n> chunk 1\ntake 000100000800000001ff 00*255\n> chunk 1\ntake 000100000800000001ff 00*255\n\
> chunk 1\ntake 000100000800000001ff 00*255\n> chunk 1\ntake 000100000800000001ff 00*255\n> chunk 1\ntake 000100000800000001ff 00*255\n\
> chunk 1\ntake 000100000800000001ff 00*255\n> chunk 1\ntake 000100000800000001ff 00*255\n> chunk 1\ntake 000100000800000001ff 00*255\n\
> chunk 1\ntake 000100000800000001ff 00*255\n> chunk 1\ntake 000100000800000001ff 00*255\n> chunk 1\ntake 000100000800000001ff 00*255\n\
> chunk 1\ntake 000100000800000001ff 00*255\n> chunk 1\ntake 000100000800000001ff 00*255\n> chunk 1\ntake 000100000800000001ff 00*255\n\
> chunk 1\ntake 000100000800000001ff 00*255\n> chunk 1\ntake 000100000800000001ff 00*255\n> chunk 1\ntake 000100000800000001ff 00*255\n\
> chunk 1\ntake 000100000800000001ff 00*255\n> chunk 1\ntake 000100000800000001ff 00*255\n> chunk 1\ntake 000100000800000001ff 00*255\n\
> chunk 1\ntake 000100000800000001ff 00*255\n> chunk 1\ntake 000100000800000001ff 00*255\n> chunk 1\ntake 000100000800000001ff 00*255\n\
> chunk 1\ntake 000100000800000001ff 00*255\n> chunk 1\ntake 000100000800000001ff 00*255\n> chunk 1\ntake 000100000800000001ff 00*255\n\
> chunk 1\ntake 000100000800000001ff 00*255\n> chunk 1\ntake 000100000800000001ff 00*255\n> chunk 1\ntake 000100000800000001ff 00*255\n\
> chunk 1\ntake 000100000800000001ff 00*255\n> chunk 1\ntake 000100000800000001ff 00*255\n> chunk 1\ntake 000100000800000001ff 00*255\n\
> chunk 1\ntake 000100000800000001ff 00*255\n> chunk 1\ntake 000100000800000001ff 00*255\n> chunk 1\ntake 000100000800000001ff 00*255\n\
> chunk 1\ntake 000100000800000001ff 00*255\n> chunk 1\ntake 000100000800000001ff 00*255\n> chunk 1\ntake 000100000800000001ff 00*255\n\
> chunk 1\ntake 000100000800000001ff 00*255\n> chunk 1\ntake 000100000800000001ff 00*255\n> chunk 1\ntake 000100000800000001ff 00*255\n\
> chunk 1\ntake 000100000800000001ff 00*255\n> chunk 1\ntake 000100000800000001ff 00*255\n> chunk 1\ntake 000100000800000001ff 00*255\n\
> chunk 1\ntake 000100000800000001ff 00*255\n> chunk 1\ntake 000100000800000001ff 00*255\n> chunk 1\ntake 000100000800000001ff 00*255\n\
> chunk 1\ntake 000100000800000001ff 00*255\n> chunk 1\ntake 000100000800000001ff 00*255\n> chunk 1\ntake 000100000800000001ff 00*255\n\
> chunk 1\ntake 000100000800000001ff 00*255\n> chunk 1\ntake 000100000800000001ff 00*255\n> chunk 1\ntake 000100000800000001ff 00*255\n\
> chunk 1\ntake 000100000800000001ff 00*255\n> chunk 1\ntake 000100000800000001ff 00*255\n> chunk 1\ntake 000100000800000001ff 00*255\n\
> chunk 1\ntake 000100000800000001ff 00*255\n> chunk 1\ntake 000100000800000001ff 00*255\n> chunk 1\ntake 000100000800000001ff 00*255\n\
> chunk 1\ntake 000100000800000001ff 00*255\n> chunk 1\ntake 000100000800000001ff 00*255\n> chunk 1\ntake 000100000800000001ff 00*255\n\
> chunk 1\ntake 000100000800000001ff 00*255\n> chunk 1\ntake 000100000800000001ff 00*255\n> chunk 1\ntake 000100000800000001ff 00*255\n\
> chunk 1\ntake 000100000800000001ff 00*255\n> chunk 1\ntake 000100000800000001ff 00*255\n> chunk 1\ntake 000100000800000001ff 00*255\n\
> chunk 1\ntake 000100000800000001ff 00*255\n> chunk 1\ntake 000100000800000001ff 00*255\n> chunk 1\ntake 000100000800000001ff 00*255\n\
> chunk 1\ntake 000100000800000001ff 00*255\n> chunk 1\ntake 000100000800000001ff 00*255\n> chunk 1\ntake 000100000800000001ff 00*255\n\
> chunk 1\ntake 000100000800000001ff 00*255\n> chunk 1\ntake 000100000800000001ff 00*255\n> chunk 1\ntake 000100000800000001ff 00*255\n\
> chunk 1\ntake 000100000800000001ff 00*255\n> chunk 1\ntake 000100000800000001ff 00*255\n> chunk 1\ntake 000100000800000001ff 00*255\n\
> chunk 1\ntake 000100000800000001ff 00*255\n> chunk 1\ntake 000100000800000001ff 00*255\n> chunk 1\ntake 000100000800000001ff 00*255\n\
> chunk 1\ntake 000100000800000001ff 00*255\n> chunk 1\ntake 000100000800000001ff 00*255\n> chunk 1\ntake 000100000800000001ff 00*255\n\
> chunk 1\ntake 000100000800000001ff 00*255\n> chunk 1\ntake 000100000800000001ff 00*255\n> chunk 1\ntake 000100000800000001ff 00*255\n\
> chunk 1\ntake 000100000800000001ff 00*255\n> chunk 1\ntake 000100000800000001ff 00*255\n> chunk 1\ntake 000100000800000001ff 00*255\n\
> chunk 1\ntake 000100000800000001ff 00*255\n> chunk 1\ntake 000100000800000001ff 00*255\n> chunk 1\ntake 000100000800000001ff 00*255\n\
> chunk 1\ntake 000100000800000001ff 00*255\n> chunk 1\ntake 000100000800000001ff 00*255\n> chunk 1\ntake ACK\n\
output ACK 0000040800000000000000800000000408000000000100008000\nwrote 35\n\
server the peer fills its windows\n\
output OWN_SERVER\nwrote 21\ntake PRE H2_CLIENT 0000130104000000014287bdab4e9c17b7ff4188081702e15ddb8f03\n\
> opened 1 open 99 :method=CONNECT,:authority=10.0.1.7:80\ntake 00000b010400000003bf4188081702ecaeedc781\n\
> opened 3 open 99 :method=CONNECT,:authority=10.0.3.7:80\ntake 004000000000000001 61*10923 41*5461\n> chunk 1 61*10923 41*5461\n\
take 004000000000000001 62*10923 42*5461\n> chunk 1 62*10923 42*5461\ntake 004000000000000001 63*10923 43*5461\n\
> chunk 1 63*10923 43*5461\ntake 003fff000000000003 64*10922 44*5461\n> chunk 3 64*10922 44*5461\ntake ACK\n\
output ACK 00000408000000000000008000\nwrote 22\ntake 003fff000000000001 65*10922 45*5461\n> chunk 1 65*10922 45*5461\n\
output 0000040800000000000000bffe\nwrote 13\ncredit 1 32767\ncredit 3 16383\ncredit 1 1\noutput 00000408000000000100008000\nwrote 13\n\
take 004000000000000001 66*10923 46*5461\n> chunk 1 66*10923 46*5461\ntake 004000000100000001 67*10923 47*5461\n\
> chunk 1 67*10923 47*5461\n> ended 1\ncredit 1 65535\noutput 00000408000000000000008000\nwrote 13\n\
server this end fills its windows\n\
take PRE H2_CLIENT 0000130104000000014287bdab4e9c17b7ff4188081702e15ddb8f03\n> opened 1 open 99 :method=CONNECT,:authority=10.0.1.7:80\n\
status 1 200\ntake 00000b010400000003bf4188081702ecaeedc781\n> opened 3 open 99 :method=CONNECT,:authority=10.0.3.7:80\nstatus 3 200\n\
output OWN_SERVER ACK 000002010400000001208800000101040000000388\nwrote 51\nsome 1 16384 61*13334 41*6666\n\
output 004000000000000001 61*13334 41*3050\nwrote 16393\nsome 1 16384 62*13334 42*6666\noutput 004000000000000001 62*13334 42*3050\n\
wrote 16393\nsome 1 16384 63*13334 43*6666\noutput 004000000000000001 63*13334 43*3050\nwrote 16393\nsome 1 16383 64*13334 44*6666\n\
output 003fff000000000001 64*13334 44*3049\nwrote 16392\nsome 1 0 65*13334 45*6666\nsome 3 0 66*9\ntake ACK 00000408000000000000000064\n\
some 3 90 67*60 47*30\noutput 00005a000000000003 67*60 47*30\nwrote 99\nsome 1 0 68*60 48*30\ntake 00000408000000000100000032\n\
some 1 10 69*60 49*30\noutput 00000a000000000001 69*10\nwrote 19\nend 1\nend 3\noutput 000000000100000001000000000100000003\nwrote 18\n\
";

// server windows of streams below zero: h2 saw RemoteSettingsChanged; SettingsAcknowledged; ResponseReceived 1 :status=200;
// DataReceived 1 1000; SettingsAcknowledged; ResponseReceived 3 :status=200; DataReceived 3 400; DataReceived 1 3; SettingsAcknowledged;
// DataReceived 1 600; DataReceived 1 0; StreamEnded 1
// server a window of none: h2 saw RemoteSettingsChanged; SettingsAcknowledged; SettingsAcknowledged; ResponseReceived 1 :status=200;
// DataReceived 1 0; StreamEnded 1
// server the window shrinks while DATA waits: h2 saw RemoteSettingsChanged; SettingsAcknowledged; ResponseReceived 1 :status=200;
// DataReceived 1 900; SettingsAcknowledged; SettingsAcknowledged; DataReceived 1 1100
// server the peer resets while DATA waits: h2 saw RemoteSettingsChanged; SettingsAcknowledged; ResponseReceived 1 :status=200;
// ResponseReceived 3 :status=200; DataReceived 3 16384; DataReceived 3 16384; DataReceived 3 16384
// server this end resets while DATA waits: h2 saw RemoteSettingsChanged; SettingsAcknowledged; ResponseReceived 1 :status=200;
// ResponseReceived 3 :status=200; StreamReset 1 8; DataReceived 3 5000; StreamReset 3 5
// server DATA behind this ends reset: h2 saw RemoteSettingsChanged; SettingsAcknowledged; StreamReset 1 7; WindowUpdated 0 32768
// server trailers of a request: h2 saw RemoteSettingsChanged; SettingsAcknowledged; StreamReset 1 1
// server PING both ways: h2 saw RemoteSettingsChanged; SettingsAcknowledged; PingAckReceived; PingAckReceived; PingAckReceived
// server the peer goes away: h2 saw nothing more, since it is gone
// server numbers are skipped: h2 saw RemoteSettingsChanged; SettingsAcknowledged; ResponseReceived 101 :status=500; StreamEnded 101;
// ResponseReceived 9 :status=400; StreamEnded 9; ResponseReceived 5 :status=404; StreamEnded 5
pub const PART_3: &[u8] = b"\
server windows of streams below zero\n\
take PRE H2_CLIENT 0000130104000000014287bdab4e9c17b7ff4188081702e15ddb8f03\n> opened 1 open 99 :method=CONNECT,:authority=10.0.1.7:80\n\
status 1 200\noutput OWN_SERVER ACK 0000020104000000012088\nwrote 41\nsome 1 1000 61*667 41*333\noutput 0003e8000000000001 61*667 41*333\n\
wrote 1009\ntake ACK 000006040000000000000400000190\noutput ACK\nwrote 9\nsome 1 0 62*10\ntake 00000b010400000003bf4188081702ecaeedc781\n\
> opened 3 open 99 :method=CONNECT,:authority=10.0.3.7:80\nstatus 3 200\noutput 00000101040000000388\nwrote 10\nsome 3 400 63*334 43*166\n\
output 000190000000000003 63*334 43*66\nwrote 409\ntake 00000408000000000100000258\nsome 1 0 64*10\ntake 00000408000000000100000003\n\
some 1 3 65*10\noutput 000003000000000001656565\nwrote 12\ntake 0000060400000000000004000003e8\noutput ACK\nwrote 9\n\
some 1 600 66*467 46*233\noutput 000258000000000001 66*467 46*133\nwrote 609\nend 1\noutput 000000000100000001\nwrote 9\n\
server a window of none\n\
output OWN_SERVER\nwrote 21\ntake PRE H2_CLIENT 000006040000000000000400000000 ACK\noutput ACK ACK\nwrote 18\n\
take 0000130104000000014287bdab4e9c17b7ff4188081702e15ddb8f03\n> opened 1 open 99 :method=CONNECT,:authority=10.0.1.7:80\nstatus 1 200\n\
output 0000020104000000012088\nwrote 11\nsome 1 0 6161616161\nend 1\noutput 000000000100000001\nwrote 9\n\
server the window shrinks while DATA waits\n\
take PRE H2_CLIENT 0000130104000000014287bdab4e9c17b7ff4188081702e15ddb8f03\n> opened 1 open 99 :method=CONNECT,:authority=10.0.1.7:80\n\
status 1 200\noutput OWN_SERVER ACK 0000020104000000012088\nwrote 41\nsome 1 900 61*600 41*300\ntake ACK 000006040000000000000400000064\n\
some 1 0 6262626262\noutput 000384000000000001 61*600 41*300 000000040100000000\nwrote 500\noutput 61*109 41*300 000000040100000000\n\
wrote 418\ntake 0000060400000000000004000007d0\noutput ACK\nwrote 9\nsome 1 1100 63*3334 43*1666\noutput 00044c000000000001 63*1100\n\
wrote 1109\n\
server the peer resets while DATA waits\n\
take PRE H2_CLIENT 0000130104000000014287bdab4e9c17b7ff4188081702e15ddb8f03\n> opened 1 open 99 :method=CONNECT,:authority=10.0.1.7:80\n\
status 1 200\ntake 00000b010400000003bf4188081702ecaeedc781\n> opened 3 open 99 :method=CONNECT,:authority=10.0.3.7:80\nstatus 3 200\n\
output OWN_SERVER ACK 000002010400000001208800000101040000000388\nwrote 51\nsome 1 16384 61*10923 41*5461\n\
take ACK 00000403000000000100000008\n> reset 1 8\nsome 3 16384 62*10923 42*5461\noutput 004000000000000003 62*10923 42*5461\nwrote 16393\n\
some 3 16384 63*10923 43*5461\noutput 004000000000000003 63*10923 43*5461\nwrote 16393\nsome 3 16384 64*10923 44*5461\n\
output 004000000000000003 64*10923 44*5461\nwrote 16393\nsome 3 16383 65*10923 45*5461\noutput 003fff000000000003 65*10923 45*5460\n\
wrote 20\ntake 00000403000000000300000002\n> reset 3 2\noutput 65*10912 45*5460\nwrote 16372\n\
take 00000408000000000000003fff 00000403000000000300000005\n\
server this end resets while DATA waits\n\
take PRE H2_CLIENT 0000130104000000014287bdab4e9c17b7ff4188081702e15ddb8f03\n> opened 1 open 99 :method=CONNECT,:authority=10.0.1.7:80\n\
status 1 200\ntake 00000b010400000003bf4188081702ecaeedc781\n> opened 3 open 99 :method=CONNECT,:authority=10.0.3.7:80\nstatus 3 200\n\
output OWN_SERVER ACK 000002010400000001208800000101040000000388\nwrote 51\nsome 1 5000 61*3334 41*1666\nreset 1 8\n\
output 00000403000000000100000008\nwrote 13\ntake ACK\nsome 3 5000 62*3334 42*1666\noutput 001388000000000003 62*3334 42*1666\nwrote 1\n\
reset 3 5\noutput 1388000000000003 62*3334 42*1666 00000403000000000300000005\nwrote 5021\n\
server DATA behind this ends reset\n\
take PRE H2_CLIENT 0000130104000000014287bdab4e9c17b7ff4188081702e15ddb8f03\n> opened 1 open 99 :method=CONNECT,:authority=10.0.1.7:80\n\
reset 1 7\ntake 004000000000000001 61*10923 41*5461 004000000000000001 62*10923 42*5461 004000000000000001 63*10923 43*5461\n\
output OWN_SERVER ACK 0000040300000000010000000700000408000000000000008000\nwrote 56\ntake ACK\n\
server trailers of a request\n\
take PRE H2_CLIENT 0000130104000000014287bdab4e9c17b7ff4188081702e15ddb8f03\n> opened 1 open 99 :method=CONNECT,:authority=10.0.1.7:80\n\
take 000006000000000001616161616161\n> chunk 1 616161616161\ntake 0000080105000000014084f2b22da78177\n> broken 1 1\n\
output OWN_SERVER ACK 00000403000000000100000001\nwrote 43\ntake ACK\n\
server PING both ways\n\
take PRE H2_CLIENT 0000080600000000003030303030303030 000008060000000000ffffffffffffffff 0000080600000000000001020304050607\n\
take 0000080601000000007374726179656421\n\
output OWN_SERVER ACK 0000080601000000003030303030303030000008060100000000ffffffffffffffff0000080601000000000001\nmore 020304050607\n\
wrote 81\ntake ACK\n\
server the peer goes away\n\
take PRE H2_CLIENT 0000130104000000014287bdab4e9c17b7ff4188081702e15ddb8f03\n> opened 1 open 99 :method=CONNECT,:authority=10.0.1.7:80\n\
take 00000b07 00*13 627965\n> gone 0\nstatus 1 200\noutput OWN_SERVER ACK 0000020104000000012088\nwrote 41\n\
server numbers are skipped\n\
take PRE H2_CLIENT 0000130104000000054287bdab4e9c17b7ff4188081702edaeedc781\n> opened 5 open 99 :method=CONNECT,:authority=10.0.5.7:80\n\
take 00000b010500000009bf4188081702efaeedc781\n> opened 9 end 99 :method=CONNECT,:authority=10.0.9.7:80\n\
take 00000c010400000065c04189081702e1005776e3c0\n> opened 101 open 101 :method=CONNECT,:authority=10.0.101.7:80\noutput OWN_SERVER ACK\n\
wrote 30\ntake ACK\nstatus 101 500 end\nstatus 9 400 end\nstatus 5 404 end\n\
output 000002010500000065208e0000010105000000098c0000010105000000058d\nwrote 31\n\
";

// server a hundred streams: h2 saw RemoteSettingsChanged; SettingsAcknowledged; StreamReset 3 8
pub const PART_4: &[u8] = b"\
server a hundred streams\n\
take PRE H2_CLIENT 0000130104000000014287bdab4e9c17b7ff4188081702e15ddb8f03\n> opened 1 open 99 :method=CONNECT,:authority=10.0.1.7:80\n\
take 00000b010400000003bf4188081702ecaeedc781\n> opened 3 open 99 :method=CONNECT,:authority=10.0.3.7:80\n\
take 00000b010400000005c04188081702edaeedc781\n> opened 5 open 99 :method=CONNECT,:authority=10.0.5.7:80\n\
take 00000b010400000007c14188081702eeaeedc781\n> opened 7 open 99 :method=CONNECT,:authority=10.0.7.7:80\n\
take 00000b010400000009c24188081702efaeedc781\n> opened 9 open 99 :method=CONNECT,:authority=10.0.9.7:80\n\
take 00000c01040000000bc34189081702e10aeedc781f\n> opened 11 open 100 :method=CONNECT,:authority=10.0.11.7:80\n\
take 00000c01040000000dc44189081702e165776e3c0f\n> opened 13 open 100 :method=CONNECT,:authority=10.0.13.7:80\n\
take 00000c01040000000fc54189081702e16d776e3c0f\n> opened 15 open 100 :method=CONNECT,:authority=10.0.15.7:80\n\
take 00000c010400000011c64189081702e175776e3c0f\n> opened 17 open 100 :method=CONNECT,:authority=10.0.17.7:80\n\
take 00000c010400000013c74189081702e17d776e3c0f\n> opened 19 open 100 :method=CONNECT,:authority=10.0.19.7:80\n\
take 00000c010400000015c84189081702e20aeedc781f\n> opened 21 open 100 :method=CONNECT,:authority=10.0.21.7:80\n\
take 00000c010400000017c94189081702e265776e3c0f\n> opened 23 open 100 :method=CONNECT,:authority=10.0.23.7:80\n\
take 00000c010400000019ca4189081702e26d776e3c0f\n> opened 25 open 100 :method=CONNECT,:authority=10.0.25.7:80\n\
take 00000c01040000001bcb4189081702e275776e3c0f\n> opened 27 open 100 :method=CONNECT,:authority=10.0.27.7:80\n\
take 00000c01040000001dcc4189081702e27d776e3c0f\n> opened 29 open 100 :method=CONNECT,:authority=10.0.29.7:80\n\
take 00000c01040000001fcd4189081702ec85776e3c0f\n> opened 31 open 100 :method=CONNECT,:authority=10.0.31.7:80\n\
take 00000c010400000021ce4189081702ecb2bbb71e07\n> opened 33 open 100 :method=CONNECT,:authority=10.0.33.7:80\n\
take 00000c010400000023cf4189081702ecb6bbb71e07\n> opened 35 open 100 :method=CONNECT,:authority=10.0.35.7:80\n\
take 00000c010400000025d04189081702ecbabbb71e07\n> opened 37 open 100 :method=CONNECT,:authority=10.0.37.7:80\n\
take 00000c010400000027d14189081702ecbebbb71e07\n> opened 39 open 100 :method=CONNECT,:authority=10.0.39.7:80\n\
take 00000c010400000029d24189081702ed05776e3c0f\n> opened 41 open 100 :method=CONNECT,:authority=10.0.41.7:80\n\
take 00000c01040000002bd34189081702ed32bbb71e07\n> opened 43 open 100 :method=CONNECT,:authority=10.0.43.7:80\n\
take 00000c01040000002dd44189081702ed36bbb71e07\n> opened 45 open 100 :method=CONNECT,:authority=10.0.45.7:80\n\
take 00000c01040000002fd54189081702ed3abbb71e07\n> opened 47 open 100 :method=CONNECT,:authority=10.0.47.7:80\n\
take 00000c010400000031d64189081702ed3ebbb71e07\n> opened 49 open 100 :method=CONNECT,:authority=10.0.49.7:80\n\
take 00000c010400000033d74189081702ed85776e3c0f\n> opened 51 open 100 :method=CONNECT,:authority=10.0.51.7:80\n\
take 00000c010400000035d84189081702edb2bbb71e07\n> opened 53 open 100 :method=CONNECT,:authority=10.0.53.7:80\n\
take 00000c010400000037d94189081702edb6bbb71e07\n> opened 55 open 100 :method=CONNECT,:authority=10.0.55.7:80\n\
take 00000c010400000039da4189081702edbabbb71e07\n> opened 57 open 100 :method=CONNECT,:authority=10.0.57.7:80\n\
take 00000c01040000003bdb4189081702edbebbb71e07\n> opened 59 open 100 :method=CONNECT,:authority=10.0.59.7:80\n\
take 00000c01040000003ddc4189081702ee05776e3c0f\n> opened 61 open 100 :method=CONNECT,:authority=10.0.61.7:80\n\
take 00000c01040000003fdd4189081702ee32bbb71e07\n> opened 63 open 100 :method=CONNECT,:authority=10.0.63.7:80\n\
take 00000c010400000041de4189081702ee36bbb71e07\n> opened 65 open 100 :method=CONNECT,:authority=10.0.65.7:80\n\
take 00000c010400000043df4189081702ee3abbb71e07\n> opened 67 open 100 :method=CONNECT,:authority=10.0.67.7:80\n\
take 00000c010400000045e04189081702ee3ebbb71e07\n> opened 69 open 100 :method=CONNECT,:authority=10.0.69.7:80\n\
take 00000c010400000047e14189081702ee85776e3c0f\n> opened 71 open 100 :method=CONNECT,:authority=10.0.71.7:80\n\
take 00000c010400000049e24189081702eeb2bbb71e07\n> opened 73 open 100 :method=CONNECT,:authority=10.0.73.7:80\n\
take 00000c01040000004be34189081702eeb6bbb71e07\n> opened 75 open 100 :method=CONNECT,:authority=10.0.75.7:80\n\
take 00000c01040000004de44189081702eebabbb71e07\n> opened 77 open 100 :method=CONNECT,:authority=10.0.77.7:80\n\
take 00000c01040000004fe54189081702eebebbb71e07\n> opened 79 open 100 :method=CONNECT,:authority=10.0.79.7:80\n\
take 00000c010400000051e64189081702ef05776e3c0f\n> opened 81 open 100 :method=CONNECT,:authority=10.0.81.7:80\n\
take 00000c010400000053e74189081702ef32bbb71e07\n> opened 83 open 100 :method=CONNECT,:authority=10.0.83.7:80\n\
take 00000c010400000055e84189081702ef36bbb71e07\n> opened 85 open 100 :method=CONNECT,:authority=10.0.85.7:80\n\
take 00000c010400000057e94189081702ef3abbb71e07\n> opened 87 open 100 :method=CONNECT,:authority=10.0.87.7:80\n\
take 00000c010400000059ea4189081702ef3ebbb71e07\n> opened 89 open 100 :method=CONNECT,:authority=10.0.89.7:80\n\
take 00000c01040000005beb4189081702ef85776e3c0f\n> opened 91 open 100 :method=CONNECT,:authority=10.0.91.7:80\n\
take 00000c01040000005dec4189081702efb2bbb71e07\n> opened 93 open 100 :method=CONNECT,:authority=10.0.93.7:80\n\
take 00000c01040000005fed4189081702efb6bbb71e07\n> opened 95 open 100 :method=CONNECT,:authority=10.0.95.7:80\n\
take 00000c010400000061ee4189081702efbabbb71e07\n> opened 97 open 100 :method=CONNECT,:authority=10.0.97.7:80\n\
take 00000c010400000063ef4189081702efbebbb71e07\n> opened 99 open 100 :method=CONNECT,:authority=10.0.99.7:80\n\
take 00000c010400000065f04189081702e1005776e3c0\n> opened 101 open 101 :method=CONNECT,:authority=10.0.101.7:80\n\
take 00000d010400000067f1418a081702e1032bbb71e07f\n> opened 103 open 101 :method=CONNECT,:authority=10.0.103.7:80\n\
take 00000d010400000069f2418a081702e1036bbb71e07f\n> opened 105 open 101 :method=CONNECT,:authority=10.0.105.7:80\n\
take 00000d01040000006bf3418a081702e103abbb71e07f\n> opened 107 open 101 :method=CONNECT,:authority=10.0.107.7:80\n\
take 00000d01040000006df4418a081702e103ebbb71e07f\n> opened 109 open 101 :method=CONNECT,:authority=10.0.109.7:80\n\
take 00000c01040000006ff54189081702e1085776e3c0\n> opened 111 open 101 :method=CONNECT,:authority=10.0.111.7:80\n\
take 00000d010400000071f6418a081702e10b2bbb71e07f\n> opened 113 open 101 :method=CONNECT,:authority=10.0.113.7:80\n\
take 00000d010400000073f7418a081702e10b6bbb71e07f\n> opened 115 open 101 :method=CONNECT,:authority=10.0.115.7:80\n\
take 00000d010400000075f8418a081702e10babbb71e07f\n> opened 117 open 101 :method=CONNECT,:authority=10.0.117.7:80\n\
take 00000d010400000077f9418a081702e10bebbb71e07f\n> opened 119 open 101 :method=CONNECT,:authority=10.0.119.7:80\n\
take 00000c010400000079fa4189081702e1105776e3c0\n> opened 121 open 101 :method=CONNECT,:authority=10.0.121.7:80\n\
take 00000d01040000007bfb418a081702e1132bbb71e07f\n> opened 123 open 101 :method=CONNECT,:authority=10.0.123.7:80\n\
take 00000d01040000007dfc418a081702e1136bbb71e07f\n> opened 125 open 101 :method=CONNECT,:authority=10.0.125.7:80\n\
take 00000d01040000007ffd418a081702e113abbb71e07f\n> opened 127 open 101 :method=CONNECT,:authority=10.0.127.7:80\n\
take 00000d010400000081fe418a081702e113ebbb71e07f\n> opened 129 open 101 :method=CONNECT,:authority=10.0.129.7:80\n\
take 00000e010400000083ff00418a081702e1642bbb71e07f\n> opened 131 open 101 :method=CONNECT,:authority=10.0.131.7:80\n\
take 00000e010400000085ff01418a081702e16595ddb8f03f\n> opened 133 open 101 :method=CONNECT,:authority=10.0.133.7:80\n\
take 00000e010400000087ff02418a081702e165b5ddb8f03f\n> opened 135 open 101 :method=CONNECT,:authority=10.0.135.7:80\n\
take 00000e010400000089ff03418a081702e165d5ddb8f03f\n> opened 137 open 101 :method=CONNECT,:authority=10.0.137.7:80\n\
take 00000e01040000008bff04418a081702e165f5ddb8f03f\n> opened 139 open 101 :method=CONNECT,:authority=10.0.139.7:80\n\
take 00000e01040000008dff05418a081702e1682bbb71e07f\n> opened 141 open 101 :method=CONNECT,:authority=10.0.141.7:80\n\
take 00000e01040000008fff06418a081702e16995ddb8f03f\n> opened 143 open 101 :method=CONNECT,:authority=10.0.143.7:80\n\
take 00000e010400000091ff07418a081702e169b5ddb8f03f\n> opened 145 open 101 :method=CONNECT,:authority=10.0.145.7:80\n\
take 00000e010400000093ff08418a081702e169d5ddb8f03f\n> opened 147 open 101 :method=CONNECT,:authority=10.0.147.7:80\n\
take 00000e010400000095ff09418a081702e169f5ddb8f03f\n> opened 149 open 101 :method=CONNECT,:authority=10.0.149.7:80\n\
take 0000150104000000974287bdab4e9c17b7ff418a081702e16c2bbb71e07f\n> opened 151 open 101 :method=CONNECT,:authority=10.0.151.7:80\n\
take 00000d010400000099bf418a081702e16d95ddb8f03f\n> opened 153 open 101 :method=CONNECT,:authority=10.0.153.7:80\n\
take 00000d01040000009bc0418a081702e16db5ddb8f03f\n> opened 155 open 101 :method=CONNECT,:authority=10.0.155.7:80\n\
take 00000d01040000009dc1418a081702e16dd5ddb8f03f\n> opened 157 open 101 :method=CONNECT,:authority=10.0.157.7:80\n\
take 00000d01040000009fc2418a081702e16df5ddb8f03f\n> opened 159 open 101 :method=CONNECT,:authority=10.0.159.7:80\n\
take 00000d0104000000a1c3418a081702e1702bbb71e07f\n> opened 161 open 101 :method=CONNECT,:authority=10.0.161.7:80\n\
take 00000d0104000000a3c4418a081702e17195ddb8f03f\n> opened 163 open 101 :method=CONNECT,:authority=10.0.163.7:80\n\
take 00000d0104000000a5c5418a081702e171b5ddb8f03f\n> opened 165 open 101 :method=CONNECT,:authority=10.0.165.7:80\n\
take 00000d0104000000a7c6418a081702e171d5ddb8f03f\n> opened 167 open 101 :method=CONNECT,:authority=10.0.167.7:80\n\
take 00000d0104000000a9c7418a081702e171f5ddb8f03f\n> opened 169 open 101 :method=CONNECT,:authority=10.0.169.7:80\n\
take 00000d0104000000abc8418a081702e1742bbb71e07f\n> opened 171 open 101 :method=CONNECT,:authority=10.0.171.7:80\n\
take 00000d0104000000adc9418a081702e17595ddb8f03f\n> opened 173 open 101 :method=CONNECT,:authority=10.0.173.7:80\n\
take 00000d0104000000afca418a081702e175b5ddb8f03f\n> opened 175 open 101 :method=CONNECT,:authority=10.0.175.7:80\n\
take 00000d0104000000b1cb418a081702e175d5ddb8f03f\n> opened 177 open 101 :method=CONNECT,:authority=10.0.177.7:80\n\
take 00000d0104000000b3cc418a081702e175f5ddb8f03f\n> opened 179 open 101 :method=CONNECT,:authority=10.0.179.7:80\n\
take 00000d0104000000b5cd418a081702e1782bbb71e07f\n> opened 181 open 101 :method=CONNECT,:authority=10.0.181.7:80\n\
take 00000d0104000000b7ce418a081702e17995ddb8f03f\n> opened 183 open 101 :method=CONNECT,:authority=10.0.183.7:80\n\
take 00000d0104000000b9cf418a081702e179b5ddb8f03f\n> opened 185 open 101 :method=CONNECT,:authority=10.0.185.7:80\n\
take 00000d0104000000bbd0418a081702e179d5ddb8f03f\n> opened 187 open 101 :method=CONNECT,:authority=10.0.187.7:80\n\
take 00000d0104000000bdd1418a081702e179f5ddb8f03f\n> opened 189 open 101 :method=CONNECT,:authority=10.0.189.7:80\n\
take 00000d0104000000bfd2418a081702e17c2bbb71e07f\n> opened 191 open 101 :method=CONNECT,:authority=10.0.191.7:80\n\
take 00000d0104000000c1d3418a081702e17d95ddb8f03f\n> opened 193 open 101 :method=CONNECT,:authority=10.0.193.7:80\n\
take 00000d0104000000c3d4418a081702e17db5ddb8f03f\n> opened 195 open 101 :method=CONNECT,:authority=10.0.195.7:80\n\
take 00000d0104000000c5d5418a081702e17dd5ddb8f03f\n> opened 197 open 101 :method=CONNECT,:authority=10.0.197.7:80\n\
take 00000d0104000000c7d6418a081702e17df5ddb8f03f\n> opened 199 open 101 :method=CONNECT,:authority=10.0.199.7:80\n\
take 0000010104000000c982\n> broken 201 7\ntake 0000040000000000c96c617465\nreset 3 8\ntake 0000010104000000cb82\n\
> opened 203 open 42 :method=GET\noutput OWN_SERVER ACK 0000040300000000c90000000700000403000000000300000008\nwrote 56\ntake ACK\n\
";

// server priorities and large header lists: h2 saw RemoteSettingsChanged; SettingsAcknowledged
// server a header block in pieces: h2 saw RemoteSettingsChanged; SettingsAcknowledged; ProtocolError Invalid stream ID for peer.
// server stream errors: h2 saw RemoteSettingsChanged; SettingsAcknowledged; StreamReset 1 5; StreamReset 3 1; StreamReset 5 3;
// StreamReset 7 1; ResponseReceived 9 :status=200
// server more DATA than a window grants: h2 saw RemoteSettingsChanged; SettingsAcknowledged; WindowUpdated 0 32768; WindowUpdated 0 32768;
// StreamReset 1 3
// server a window of the connection above the largest: h2 saw RemoteSettingsChanged; SettingsAcknowledged; ConnectionTerminated 3 last 3
// server a first size of windows above the largest: h2 saw RemoteSettingsChanged; SettingsAcknowledged; ConnectionTerminated 3 last 3
// server a stream's window above the largest: h2 saw RemoteSettingsChanged; SettingsAcknowledged; ConnectionTerminated 3 last 3
// server DATA on an idle stream: h2 saw RemoteSettingsChanged; SettingsAcknowledged; ConnectionTerminated 1 last 3
// server DATA on a closed stream: h2 saw RemoteSettingsChanged; SettingsAcknowledged; ConnectionTerminated 5 last 3
// server the end of DATA twice: h2 saw RemoteSettingsChanged; SettingsAcknowledged; StreamReset 1 5
// server unknown frames: h2 saw RemoteSettingsChanged; SettingsAcknowledged; SettingsAcknowledged; PingAckReceived
// server padding without its octet: h2 saw RemoteSettingsChanged; SettingsAcknowledged; ConnectionTerminated 6 last 3
// server padding as long as the payload, and longer: h2 saw RemoteSettingsChanged; SettingsAcknowledged; ConnectionTerminated 1 last 3
// server a short PING: h2 saw RemoteSettingsChanged; SettingsAcknowledged; ConnectionTerminated 6 last 3
// server a long RST_STREAM: h2 saw RemoteSettingsChanged; SettingsAcknowledged; ConnectionTerminated 6 last 3
// server a frame that is too long: h2 saw RemoteSettingsChanged; SettingsAcknowledged; ConnectionTerminated 6 last 3
// server CONTINUATION of nothing: h2 saw RemoteSettingsChanged; SettingsAcknowledged; ConnectionTerminated 1 last 3
pub const PART_5: &[u8] = b"\
server priorities and large header lists\n\
take PRE H2_CLIENT 0000050200000000070000000308 00001101240000000100000000024287bdab4e9c17b7ff41811f\n\
> opened 1 open 89 :method=CONNECT,:authority=a\ntake 000faa010500000003bf41818f4081f3ffa11e fc*4000\n> opened 3 end 4122 +\n\
take 003aaa0104000000054287bdab4e9c17b7ff4181274081f3ff9974 fd*15000\n> opened 5 open 15122 +\noutput OWN_SERVER ACK\nwrote 30\ntake ACK\n\
server a header block in pieces\n\
take PRE H2_CLIENT 00000101010000000182 00000109000000000187 00000109040000000184\n> opened 1 end 124 :method=GET,:scheme=https,:path=/\n\
take 00000a012c0000000302000000000083860000\n> opened 3 open 86 :method=POST,:scheme=http\noutput OWN_SERVER ACK\nwrote 30\ntake ACK\n\
status 1 200 end\noutput 0000020105000000012088\nwrote 11\ntake 00000807 00*12 01\n> gone 0\n\
server stream errors\n\
take PRE H2_CLIENT 0000130104000000014287bdab4e9c17b7ff4188081702e15ddb8f03\n> opened 1 open 99 :method=CONNECT,:authority=10.0.1.7:80\n\
take 00000b010400000003bf4188081702ecaeedc781\n> opened 3 open 99 :method=CONNECT,:authority=10.0.3.7:80\n\
take 00000b010400000005c04188081702edaeedc781\n> opened 5 open 99 :method=CONNECT,:authority=10.0.5.7:80\n\
take 00000b010400000007c14188081702eeaeedc781\n> opened 7 open 99 :method=CONNECT,:authority=10.0.7.7:80\n\
take 00000b010400000009c24188081702efaeedc781\n> opened 9 open 99 :method=CONNECT,:authority=10.0.9.7:80\ntake 000000000100000001\n\
> chunk 1\n> ended 1\ntake 0000040000000000016d6f7265\n> broken 1 5\ntake 00000408000000000300000000\n> broken 3 1\n\
take 0000040800000000057fffffff\n> broken 5 3\ntake 00000101040000000782\n> broken 7 1\n\
take 00000700000000000569676e6f726564 00000408000000000500000000 00000403000000000500000008\n\
output OWN_SERVER ACK 000004030000000001000000050000040300000000030000000100000403000000000500000003000004030000\nmore 00000700000001\n\
wrote 82\ntake ACK\nstatus 9 200\noutput 0000020104000000092088\nwrote 11\n\
server more DATA than a window grants\n\
output OWN_SERVER\nwrote 21\ntake PRE H2_CLIENT 0000130104000000014287bdab4e9c17b7ff4188081702e15ddb8f03\n\
> opened 1 open 99 :method=CONNECT,:authority=10.0.1.7:80\ntake 004000000000000001 61*10923 41*5461\n> chunk 1 61*10923 41*5461\n\
take 004000000000000001 62*10923 42*5461\n> chunk 1 62*10923 42*5461\ntake 004000000000000001 63*10923 43*5461\n\
> chunk 1 63*10923 43*5461\ntake 003fff000000000001 64*10922 44*5461\n> chunk 1 64*10922 44*5461\ntake ACK\n\
output ACK 00000408000000000000008000\nwrote 22\ntake 00000100000000000121\n> broken 1 3\n\
output 0000040800000000000000800000000403000000000100000003\nwrote 26\n\
server a window of the connection above the largest\n\
output OWN_SERVER\nwrote 21\ntake PRE H2_CLIENT 0000130104000000014287bdab4e9c17b7ff4188081702e15ddb8f03\n\
> opened 1 open 99 :method=CONNECT,:authority=10.0.1.7:80\ntake 00000b010400000003bf4188081702ecaeedc781\n\
> opened 3 open 99 :method=CONNECT,:authority=10.0.3.7:80\ntake ACK\noutput ACK\nwrote 9\ntake 0000040800000000007fffffff\n> fault 3\n\
output 0000080700000000000000000300000003\nwrote 17\n\
server a first size of windows above the largest\n\
output OWN_SERVER\nwrote 21\ntake PRE H2_CLIENT 0000130104000000014287bdab4e9c17b7ff4188081702e15ddb8f03\n\
> opened 1 open 99 :method=CONNECT,:authority=10.0.1.7:80\ntake 00000b010400000003bf4188081702ecaeedc781\n\
> opened 3 open 99 :method=CONNECT,:authority=10.0.3.7:80\ntake ACK\noutput ACK\nwrote 9\ntake 000006040000000000000480000000\n> fault 3\n\
output 0000080700000000000000000300000003\nwrote 17\n\
server a stream's window above the largest\n\
output OWN_SERVER\nwrote 21\ntake PRE H2_CLIENT 0000130104000000014287bdab4e9c17b7ff4188081702e15ddb8f03\n\
> opened 1 open 99 :method=CONNECT,:authority=10.0.1.7:80\ntake 00000b010400000003bf4188081702ecaeedc781\n\
> opened 3 open 99 :method=CONNECT,:authority=10.0.3.7:80\ntake ACK\noutput ACK\nwrote 9\n\
take 00000408000000000100000005 00000604000000000000047fffffff\n> fault 3\noutput 0000080700000000000000000300000003\nwrote 17\n\
server DATA on an idle stream\n\
output OWN_SERVER\nwrote 21\ntake PRE H2_CLIENT 0000130104000000014287bdab4e9c17b7ff4188081702e15ddb8f03\n\
> opened 1 open 99 :method=CONNECT,:authority=10.0.1.7:80\ntake 00000b010400000003bf4188081702ecaeedc781\n\
> opened 3 open 99 :method=CONNECT,:authority=10.0.3.7:80\ntake ACK\noutput ACK\nwrote 9\ntake 00000100000000000978\n> fault 1\n\
output 0000080700000000000000000300000001\nwrote 17\n\
server DATA on a closed stream\n\
output OWN_SERVER\nwrote 21\ntake PRE H2_CLIENT 0000130104000000014287bdab4e9c17b7ff4188081702e15ddb8f03\n\
> opened 1 open 99 :method=CONNECT,:authority=10.0.1.7:80\ntake 00000b010400000003bf4188081702ecaeedc781\n\
> opened 3 open 99 :method=CONNECT,:authority=10.0.3.7:80\ntake ACK\noutput ACK\nwrote 9\ntake 00000403000000000100000008\n> reset 1 8\n\
take 00000100010000000178\n> fault 5\noutput 0000080700000000000000000300000005\nwrote 17\n\
server the end of DATA twice\n\
output OWN_SERVER\nwrote 21\ntake PRE H2_CLIENT 0000130104000000014287bdab4e9c17b7ff4188081702e15ddb8f03\n\
> opened 1 open 99 :method=CONNECT,:authority=10.0.1.7:80\ntake 00000b010400000003bf4188081702ecaeedc781\n\
> opened 3 open 99 :method=CONNECT,:authority=10.0.3.7:80\ntake ACK\noutput ACK\nwrote 9\ntake 000000000100000001\n> chunk 1\n> ended 1\n\
take 000000000100000001\n> broken 1 5\ntake 000000000100000001\noutput 00000403000000000100000005\nwrote 13\n\
server unknown frames\n\
output OWN_SERVER\nwrote 21\ntake PRE H2_CLIENT 0000130104000000014287bdab4e9c17b7ff4188081702e15ddb8f03\n\
> opened 1 open 99 :method=CONNECT,:authority=10.0.1.7:80\ntake 00000b010400000003bf4188081702ecaeedc781\n\
> opened 3 open 99 :method=CONNECT,:authority=10.0.3.7:80\ntake ACK\noutput ACK\nwrote 9\n\
take 000004faff0000004d77686174 000000100000000000 000006040000000000006300000000 00000806 00*13\noutput ACK 0000080601 00*12\nwrote 26\n\
server padding without its octet\n\
output OWN_SERVER\nwrote 21\ntake PRE H2_CLIENT 0000130104000000014287bdab4e9c17b7ff4188081702e15ddb8f03\n\
> opened 1 open 99 :method=CONNECT,:authority=10.0.1.7:80\ntake 00000b010400000003bf4188081702ecaeedc781\n\
> opened 3 open 99 :method=CONNECT,:authority=10.0.3.7:80\ntake ACK\noutput ACK\nwrote 9\ntake 000000000800000001\n> fault 6\n\
output 0000080700000000000000000300000006\nwrote 17\n\
server padding as long as the payload, and longer\n\
output OWN_SERVER\nwrote 21\ntake PRE H2_CLIENT 0000130104000000014287bdab4e9c17b7ff4188081702e15ddb8f03\n\
> opened 1 open 99 :method=CONNECT,:authority=10.0.1.7:80\ntake 00000b010400000003bf4188081702ecaeedc781\n\
> opened 3 open 99 :method=CONNECT,:authority=10.0.3.7:80\ntake ACK\noutput ACK\nwrote 9\ntake 0000050008000000010461626364\n> chunk 1\n\
take 0000050008000000010561626364\n> fault 1\noutput 0000080700000000000000000300000001\nwrote 17\n\
server a short PING\n\
output OWN_SERVER\nwrote 21\ntake PRE H2_CLIENT 0000130104000000014287bdab4e9c17b7ff4188081702e15ddb8f03\n\
> opened 1 open 99 :method=CONNECT,:authority=10.0.1.7:80\ntake 00000b010400000003bf4188081702ecaeedc781\n\
> opened 3 open 99 :method=CONNECT,:authority=10.0.3.7:80\ntake ACK\noutput ACK\nwrote 9\ntake 00000706 00*12\n> fault 6\n\
output 0000080700000000000000000300000006\nwrote 17\n\
server a long RST_STREAM\n\
output OWN_SERVER\nwrote 21\ntake PRE H2_CLIENT 0000130104000000014287bdab4e9c17b7ff4188081702e15ddb8f03\n\
> opened 1 open 99 :method=CONNECT,:authority=10.0.1.7:80\ntake 00000b010400000003bf4188081702ecaeedc781\n\
> opened 3 open 99 :method=CONNECT,:authority=10.0.3.7:80\ntake ACK\noutput ACK\nwrote 9\ntake 0000050300000000010000000000\n> fault 6\n\
output 0000080700000000000000000300000006\nwrote 17\n\
server a frame that is too long\n\
output OWN_SERVER\nwrote 21\ntake PRE H2_CLIENT 0000130104000000014287bdab4e9c17b7ff4188081702e15ddb8f03\n\
> opened 1 open 99 :method=CONNECT,:authority=10.0.1.7:80\ntake 00000b010400000003bf4188081702ecaeedc781\n\
> opened 3 open 99 :method=CONNECT,:authority=10.0.3.7:80\ntake ACK\noutput ACK\nwrote 9\ntake 004001000000000001 00*16385\n> fault 6\n\
output 0000080700000000000000000300000006\nwrote 17\n\
server CONTINUATION of nothing\n\
output OWN_SERVER\nwrote 21\ntake PRE H2_CLIENT 0000130104000000014287bdab4e9c17b7ff4188081702e15ddb8f03\n\
> opened 1 open 99 :method=CONNECT,:authority=10.0.1.7:80\ntake 00000b010400000003bf4188081702ecaeedc781\n\
> opened 3 open 99 :method=CONNECT,:authority=10.0.3.7:80\ntake ACK\noutput ACK\nwrote 9\ntake 00000109040000000182\n> fault 1\n\
output 0000080700000000000000000300000001\nwrote 17\n\
";

// server PING within a header block: h2 saw RemoteSettingsChanged; SettingsAcknowledged; ConnectionTerminated 1 last 3
// server a header block that isn't one: h2 saw RemoteSettingsChanged; SettingsAcknowledged; ConnectionTerminated 9 last 3
// server SETTINGS on a stream: h2 saw RemoteSettingsChanged; SettingsAcknowledged; ConnectionTerminated 1 last 3
// server a frame size of 16,383: h2 saw RemoteSettingsChanged; SettingsAcknowledged; ConnectionTerminated 1 last 3
// client a window of the connection above the largest: h2 saw RemoteSettingsChanged;
// RequestReceived 1 :method=CONNECT :authority=10.0.0.1:80; RequestReceived 3 :method=CONNECT :authority=10.0.0.1:80;
// SettingsAcknowledged; ConnectionTerminated 3 last 0
// client a first size of windows above the largest: h2 saw RemoteSettingsChanged;
// RequestReceived 1 :method=CONNECT :authority=10.0.0.1:80; RequestReceived 3 :method=CONNECT :authority=10.0.0.1:80;
// SettingsAcknowledged; ConnectionTerminated 3 last 0
// client a stream's window above the largest: h2 saw RemoteSettingsChanged; RequestReceived 1 :method=CONNECT :authority=10.0.0.1:80;
// RequestReceived 3 :method=CONNECT :authority=10.0.0.1:80; SettingsAcknowledged; ConnectionTerminated 3 last 0
// client DATA on an idle stream: h2 saw RemoteSettingsChanged; RequestReceived 1 :method=CONNECT :authority=10.0.0.1:80;
// RequestReceived 3 :method=CONNECT :authority=10.0.0.1:80; SettingsAcknowledged; ConnectionTerminated 1 last 0
// client DATA on a closed stream: h2 saw RemoteSettingsChanged; RequestReceived 1 :method=CONNECT :authority=10.0.0.1:80;
// RequestReceived 3 :method=CONNECT :authority=10.0.0.1:80; SettingsAcknowledged; ConnectionTerminated 5 last 0
// client the end of DATA twice: h2 saw RemoteSettingsChanged; RequestReceived 1 :method=CONNECT :authority=10.0.0.1:80;
// RequestReceived 3 :method=CONNECT :authority=10.0.0.1:80; SettingsAcknowledged; StreamReset 1 5
// client unknown frames: h2 saw RemoteSettingsChanged; RequestReceived 1 :method=CONNECT :authority=10.0.0.1:80;
// RequestReceived 3 :method=CONNECT :authority=10.0.0.1:80; SettingsAcknowledged; SettingsAcknowledged; PingAckReceived
// client padding without its octet: h2 saw RemoteSettingsChanged; RequestReceived 1 :method=CONNECT :authority=10.0.0.1:80;
// RequestReceived 3 :method=CONNECT :authority=10.0.0.1:80; SettingsAcknowledged; ConnectionTerminated 6 last 0
// client padding as long as the payload, and longer: h2 saw RemoteSettingsChanged;
// RequestReceived 1 :method=CONNECT :authority=10.0.0.1:80; RequestReceived 3 :method=CONNECT :authority=10.0.0.1:80;
// SettingsAcknowledged; ConnectionTerminated 1 last 0
// client a short PING: h2 saw RemoteSettingsChanged; RequestReceived 1 :method=CONNECT :authority=10.0.0.1:80;
// RequestReceived 3 :method=CONNECT :authority=10.0.0.1:80; SettingsAcknowledged; ConnectionTerminated 6 last 0
// client a long RST_STREAM: h2 saw RemoteSettingsChanged; RequestReceived 1 :method=CONNECT :authority=10.0.0.1:80;
// RequestReceived 3 :method=CONNECT :authority=10.0.0.1:80; SettingsAcknowledged; ConnectionTerminated 6 last 0
// client a frame that is too long: h2 saw RemoteSettingsChanged; RequestReceived 1 :method=CONNECT :authority=10.0.0.1:80;
// RequestReceived 3 :method=CONNECT :authority=10.0.0.1:80; SettingsAcknowledged; ConnectionTerminated 6 last 0
// client CONTINUATION of nothing: h2 saw RemoteSettingsChanged; RequestReceived 1 :method=CONNECT :authority=10.0.0.1:80;
// RequestReceived 3 :method=CONNECT :authority=10.0.0.1:80; SettingsAcknowledged; ConnectionTerminated 1 last 0
// client PING within a header block: h2 saw RemoteSettingsChanged; RequestReceived 1 :method=CONNECT :authority=10.0.0.1:80;
// RequestReceived 3 :method=CONNECT :authority=10.0.0.1:80; SettingsAcknowledged; ConnectionTerminated 1 last 0
// client a header block that isn't one: h2 saw RemoteSettingsChanged; RequestReceived 1 :method=CONNECT :authority=10.0.0.1:80;
// RequestReceived 3 :method=CONNECT :authority=10.0.0.1:80; SettingsAcknowledged; ConnectionTerminated 9 last 0
// client SETTINGS on a stream: h2 saw RemoteSettingsChanged; RequestReceived 1 :method=CONNECT :authority=10.0.0.1:80;
// RequestReceived 3 :method=CONNECT :authority=10.0.0.1:80; SettingsAcknowledged; ConnectionTerminated 1 last 0
// client a frame size of 16,383: h2 saw RemoteSettingsChanged; RequestReceived 1 :method=CONNECT :authority=10.0.0.1:80;
// RequestReceived 3 :method=CONNECT :authority=10.0.0.1:80; SettingsAcknowledged; ConnectionTerminated 1 last 0
// client a pushed stream: h2 saw RemoteSettingsChanged; RequestReceived 1 :method=CONNECT :authority=10.0.0.1:80;
// RequestReceived 3 :method=CONNECT :authority=10.0.0.1:80; SettingsAcknowledged; ConnectionTerminated 1 last 0
pub const PART_6: &[u8] = b"\
server PING within a header block\n\
output OWN_SERVER\nwrote 21\ntake PRE H2_CLIENT 0000130104000000014287bdab4e9c17b7ff4188081702e15ddb8f03\n\
> opened 1 open 99 :method=CONNECT,:authority=10.0.1.7:80\ntake 00000b010400000003bf4188081702ecaeedc781\n\
> opened 3 open 99 :method=CONNECT,:authority=10.0.3.7:80\ntake ACK\noutput ACK\nwrote 9\ntake 00000101000000000188 00000806 00*13\n\
> fault 1\noutput 0000080700000000000000000300000001\nwrote 17\n\
server a header block that isn't one\n\
output OWN_SERVER\nwrote 21\ntake PRE H2_CLIENT 0000130104000000014287bdab4e9c17b7ff4188081702e15ddb8f03\n\
> opened 1 open 99 :method=CONNECT,:authority=10.0.1.7:80\ntake 00000b010400000003bf4188081702ecaeedc781\n\
> opened 3 open 99 :method=CONNECT,:authority=10.0.3.7:80\ntake ACK\noutput ACK\nwrote 9\ntake 00000101040000000180\n> fault 9\n\
output 0000080700000000000000000300000009\nwrote 17\n\
server SETTINGS on a stream\n\
output OWN_SERVER\nwrote 21\ntake PRE H2_CLIENT 0000130104000000014287bdab4e9c17b7ff4188081702e15ddb8f03\n\
> opened 1 open 99 :method=CONNECT,:authority=10.0.1.7:80\ntake 00000b010400000003bf4188081702ecaeedc781\n\
> opened 3 open 99 :method=CONNECT,:authority=10.0.3.7:80\ntake ACK\noutput ACK\nwrote 9\ntake 000000040000000001\n> fault 1\n\
output 0000080700000000000000000300000001\nwrote 17\n\
server a frame size of 16,383\n\
output OWN_SERVER\nwrote 21\ntake PRE H2_CLIENT 0000130104000000014287bdab4e9c17b7ff4188081702e15ddb8f03\n\
> opened 1 open 99 :method=CONNECT,:authority=10.0.1.7:80\ntake 00000b010400000003bf4188081702ecaeedc781\n\
> opened 3 open 99 :method=CONNECT,:authority=10.0.3.7:80\ntake ACK\noutput ACK\nwrote 9\ntake 000006040000000000000500003fff\n> fault 1\n\
output 0000080700000000000000000300000001\nwrote 17\n\
client a window of the connection above the largest\n\
open 1 10.0.0.1:80\nopen 3 10.0.0.1:80\n\
output PRE OWN_CLIENT 000017010400000001200207434f4e4e454354010b31302e302e302e313a38300000160104000000030207434f\n\
more 4e4e454354010b31302e302e302e313a3830\nwrote 108\ntake H2_SERVER ACK\noutput ACK\nwrote 9\ntake 0000040800000000007fffffff\n> fault 3\n\
output 00000807 00*12 03\nwrote 17\n\
client a first size of windows above the largest\n\
open 1 10.0.0.1:80\nopen 3 10.0.0.1:80\n\
output PRE OWN_CLIENT 000017010400000001200207434f4e4e454354010b31302e302e302e313a38300000160104000000030207434f\n\
more 4e4e454354010b31302e302e302e313a3830\nwrote 108\ntake H2_SERVER ACK\noutput ACK\nwrote 9\ntake 000006040000000000000480000000\n\
> fault 3\noutput 00000807 00*12 03\nwrote 17\n\
client a stream's window above the largest\n\
open 1 10.0.0.1:80\nopen 3 10.0.0.1:80\n\
output PRE OWN_CLIENT 000017010400000001200207434f4e4e454354010b31302e302e302e313a38300000160104000000030207434f\n\
more 4e4e454354010b31302e302e302e313a3830\nwrote 108\ntake H2_SERVER ACK\noutput ACK\nwrote 9\n\
take 00000408000000000100000005 00000604000000000000047fffffff\n> fault 3\noutput 00000807 00*12 03\nwrote 17\n\
client DATA on an idle stream\n\
open 1 10.0.0.1:80\nopen 3 10.0.0.1:80\n\
output PRE OWN_CLIENT 000017010400000001200207434f4e4e454354010b31302e302e302e313a38300000160104000000030207434f\n\
more 4e4e454354010b31302e302e302e313a3830\nwrote 108\ntake H2_SERVER ACK\noutput ACK\nwrote 9\ntake 00000100000000000978\n> fault 1\n\
output 00000807 00*12 01\nwrote 17\n\
client DATA on a closed stream\n\
open 1 10.0.0.1:80\nopen 3 10.0.0.1:80\n\
output PRE OWN_CLIENT 000017010400000001200207434f4e4e454354010b31302e302e302e313a38300000160104000000030207434f\n\
more 4e4e454354010b31302e302e302e313a3830\nwrote 108\ntake H2_SERVER ACK\noutput ACK\nwrote 9\ntake 00000403000000000100000008\n\
> reset 1 8\ntake 00000100010000000178\n> fault 5\noutput 00000807 00*12 05\nwrote 17\n\
client the end of DATA twice\n\
open 1 10.0.0.1:80\nopen 3 10.0.0.1:80\n\
output PRE OWN_CLIENT 000017010400000001200207434f4e4e454354010b31302e302e302e313a38300000160104000000030207434f\n\
more 4e4e454354010b31302e302e302e313a3830\nwrote 108\ntake H2_SERVER ACK\noutput ACK\nwrote 9\ntake 000000000100000001\n> chunk 1\n\
> ended 1\ntake 000000000100000001\n> broken 1 5\ntake 000000000100000001\noutput 00000403000000000100000005\nwrote 13\n\
client unknown frames\n\
open 1 10.0.0.1:80\nopen 3 10.0.0.1:80\n\
output PRE OWN_CLIENT 000017010400000001200207434f4e4e454354010b31302e302e302e313a38300000160104000000030207434f\n\
more 4e4e454354010b31302e302e302e313a3830\nwrote 108\ntake H2_SERVER ACK\noutput ACK\nwrote 9\n\
take 000004faff0000004d77686174 000000100000000000 000006040000000000006300000000 00000806 00*13\noutput ACK 0000080601 00*12\nwrote 26\n\
client padding without its octet\n\
open 1 10.0.0.1:80\nopen 3 10.0.0.1:80\n\
output PRE OWN_CLIENT 000017010400000001200207434f4e4e454354010b31302e302e302e313a38300000160104000000030207434f\n\
more 4e4e454354010b31302e302e302e313a3830\nwrote 108\ntake H2_SERVER ACK\noutput ACK\nwrote 9\ntake 000000000800000001\n> fault 6\n\
output 00000807 00*12 06\nwrote 17\n\
client padding as long as the payload, and longer\n\
open 1 10.0.0.1:80\nopen 3 10.0.0.1:80\n\
output PRE OWN_CLIENT 000017010400000001200207434f4e4e454354010b31302e302e302e313a38300000160104000000030207434f\n\
more 4e4e454354010b31302e302e302e313a3830\nwrote 108\ntake H2_SERVER ACK\noutput ACK\nwrote 9\ntake 0000050008000000010461626364\n\
> chunk 1\ntake 0000050008000000010561626364\n> fault 1\noutput 00000807 00*12 01\nwrote 17\n\
client a short PING\n\
open 1 10.0.0.1:80\nopen 3 10.0.0.1:80\n\
output PRE OWN_CLIENT 000017010400000001200207434f4e4e454354010b31302e302e302e313a38300000160104000000030207434f\n\
more 4e4e454354010b31302e302e302e313a3830\nwrote 108\ntake H2_SERVER ACK\noutput ACK\nwrote 9\ntake 00000706 00*12\n> fault 6\n\
output 00000807 00*12 06\nwrote 17\n\
client a long RST_STREAM\n\
open 1 10.0.0.1:80\nopen 3 10.0.0.1:80\n\
output PRE OWN_CLIENT 000017010400000001200207434f4e4e454354010b31302e302e302e313a38300000160104000000030207434f\n\
more 4e4e454354010b31302e302e302e313a3830\nwrote 108\ntake H2_SERVER ACK\noutput ACK\nwrote 9\ntake 0000050300000000010000000000\n\
> fault 6\noutput 00000807 00*12 06\nwrote 17\n\
client a frame that is too long\n\
open 1 10.0.0.1:80\nopen 3 10.0.0.1:80\n\
output PRE OWN_CLIENT 000017010400000001200207434f4e4e454354010b31302e302e302e313a38300000160104000000030207434f\n\
more 4e4e454354010b31302e302e302e313a3830\nwrote 108\ntake H2_SERVER ACK\noutput ACK\nwrote 9\ntake 004001000000000001 00*16385\n\
> fault 6\noutput 00000807 00*12 06\nwrote 17\n\
client CONTINUATION of nothing\n\
open 1 10.0.0.1:80\nopen 3 10.0.0.1:80\n\
output PRE OWN_CLIENT 000017010400000001200207434f4e4e454354010b31302e302e302e313a38300000160104000000030207434f\n\
more 4e4e454354010b31302e302e302e313a3830\nwrote 108\ntake H2_SERVER ACK\noutput ACK\nwrote 9\ntake 00000109040000000182\n> fault 1\n\
output 00000807 00*12 01\nwrote 17\n\
client PING within a header block\n\
open 1 10.0.0.1:80\nopen 3 10.0.0.1:80\n\
output PRE OWN_CLIENT 000017010400000001200207434f4e4e454354010b31302e302e302e313a38300000160104000000030207434f\n\
more 4e4e454354010b31302e302e302e313a3830\nwrote 108\ntake H2_SERVER ACK\noutput ACK\nwrote 9\ntake 00000101000000000188 00000806 00*13\n\
> fault 1\noutput 00000807 00*12 01\nwrote 17\n\
client a header block that isn't one\n\
open 1 10.0.0.1:80\nopen 3 10.0.0.1:80\n\
output PRE OWN_CLIENT 000017010400000001200207434f4e4e454354010b31302e302e302e313a38300000160104000000030207434f\n\
more 4e4e454354010b31302e302e302e313a3830\nwrote 108\ntake H2_SERVER ACK\noutput ACK\nwrote 9\ntake 00000101040000000180\n> fault 9\n\
output 00000807 00*12 09\nwrote 17\n\
client SETTINGS on a stream\n\
open 1 10.0.0.1:80\nopen 3 10.0.0.1:80\n\
output PRE OWN_CLIENT 000017010400000001200207434f4e4e454354010b31302e302e302e313a38300000160104000000030207434f\n\
more 4e4e454354010b31302e302e302e313a3830\nwrote 108\ntake H2_SERVER ACK\noutput ACK\nwrote 9\ntake 000000040000000001\n> fault 1\n\
output 00000807 00*12 01\nwrote 17\n\
client a frame size of 16,383\n\
open 1 10.0.0.1:80\nopen 3 10.0.0.1:80\n\
output PRE OWN_CLIENT 000017010400000001200207434f4e4e454354010b31302e302e302e313a38300000160104000000030207434f\n\
more 4e4e454354010b31302e302e302e313a3830\nwrote 108\ntake H2_SERVER ACK\noutput ACK\nwrote 9\ntake 000006040000000000000500003fff\n\
> fault 1\noutput 00000807 00*12 01\nwrote 17\n\
client a pushed stream\n\
open 1 10.0.0.1:80\nopen 3 10.0.0.1:80\n\
output PRE OWN_CLIENT 000017010400000001200207434f4e4e454354010b31302e302e302e313a38300000160104000000030207434f\n\
more 4e4e454354010b31302e302e302e313a3830\nwrote 108\ntake H2_SERVER ACK\noutput ACK\nwrote 9\ntake 0000050504000000010000000282\n\
> fault 1\noutput 00000807 00*12 01\nwrote 17\n\
";

// client push is enabled by a server: h2 saw RemoteSettingsChanged; RequestReceived 1 :method=CONNECT :authority=10.0.0.1:80;
// RequestReceived 3 :method=CONNECT :authority=10.0.0.1:80; SettingsAcknowledged; ConnectionTerminated 1 last 0
// server push is enabled by a client: h2 saw RemoteSettingsChanged; SettingsAcknowledged; SettingsAcknowledged;
// ConnectionTerminated 1 last 3
// client HEADERS of a stream that isn't this client's: h2 saw RemoteSettingsChanged;
// RequestReceived 1 :method=CONNECT :authority=10.0.0.1:80; RequestReceived 3 :method=CONNECT :authority=10.0.0.1:80;
// SettingsAcknowledged; ConnectionTerminated 1 last 0
// server HEADERS on a skipped stream: h2 saw RemoteSettingsChanged; SettingsAcknowledged; ConnectionTerminated 5 last 9
// client one answer: h2 saw RemoteSettingsChanged; RequestReceived 1 :method=CONNECT :authority=10.0.0.1:80; SettingsAcknowledged;
// DataReceived 1 5; DataReceived 1 0; StreamEnded 1
// client trailers and interim answers: h2 saw RemoteSettingsChanged; RequestReceived 1 :method=CONNECT :authority=10.0.0.1:80;
// StreamEnded 1; RequestReceived 3 :method=CONNECT :authority=a.example:1; StreamEnded 3; SettingsAcknowledged
// client the peers limit of streams: h2 saw RemoteSettingsChanged; SettingsAcknowledged; SettingsAcknowledged;
// RequestReceived 1 :method=CONNECT :authority=10.0.0.1:80; RequestReceived 3 :method=CONNECT :authority=10.0.0.1:80; StreamReset 1 8;
// RequestReceived 5 :method=CONNECT :authority=10.0.0.2:80; DataReceived 3 0; StreamEnded 3;
// RequestReceived 7 :method=CONNECT :authority=10.0.0.4:80
// client the server goes away: h2 saw RemoteSettingsChanged; RequestReceived 1 :method=CONNECT :authority=10.0.0.1:80;
// RequestReceived 3 :method=CONNECT :authority=10.0.0.1:80; RequestReceived 5 :method=CONNECT :authority=10.0.0.1:80;
// SettingsAcknowledged; nothing more, since it is gone
// client the server refuses: h2 saw RemoteSettingsChanged; RequestReceived 1 :method=CONNECT :authority=10.0.0.1:80;
// RequestReceived 3 :method=CONNECT :authority=10.0.0.1:80; RequestReceived 5 :method=CONNECT :authority=10.0.0.1:80;
// SettingsAcknowledged; StreamReset 3 0
// server another preface: h2 saw RemoteSettingsChanged; ConnectionTerminated 1 last 0
// server SETTINGS come first: h2 saw RemoteSettingsChanged; ConnectionTerminated 1 last 0
// client an acknowledgement comes first: h2 saw RemoteSettingsChanged; ConnectionTerminated 1 last 0
// server by chance, seed 0: h2 saw RemoteSettingsChanged; SettingsAcknowledged; PingAckReceived; SettingsAcknowledged; PingAckReceived;
// ResponseReceived 1 :status=200; DataReceived 1 0; StreamEnded 1; PingAckReceived; ResponseReceived 3 :status=400; StreamEnded 3;
// StreamReset 7 8
// client by chance, seed 1: h2 saw RemoteSettingsChanged; SettingsAcknowledged; PingAckReceived; PingAckReceived;
// RequestReceived 1 :method=CONNECT :authority=10.0.0.0:80; RequestReceived 3 :method=CONNECT :authority=10.0.0.1:80;
// SettingsAcknowledged; RequestReceived 5 :method=CONNECT :authority=10.0.0.2:80;
// RequestReceived 7 :method=CONNECT :authority=10.0.0.3:80; StreamEnded 7; PingAckReceived
pub const PART_7: &[u8] = b"\
client push is enabled by a server\n\
open 1 10.0.0.1:80\nopen 3 10.0.0.1:80\n\
output PRE OWN_CLIENT 000017010400000001200207434f4e4e454354010b31302e302e302e313a38300000160104000000030207434f\n\
more 4e4e454354010b31302e302e302e313a3830\nwrote 108\ntake H2_SERVER ACK\noutput ACK\nwrote 9\ntake 000006040000000000000200000001\n\
> fault 1\noutput 00000807 00*12 01\nwrote 17\n\
server push is enabled by a client\n\
output OWN_SERVER\nwrote 21\ntake PRE H2_CLIENT 0000130104000000014287bdab4e9c17b7ff4188081702e15ddb8f03\n\
> opened 1 open 99 :method=CONNECT,:authority=10.0.1.7:80\ntake 00000b010400000003bf4188081702ecaeedc781\n\
> opened 3 open 99 :method=CONNECT,:authority=10.0.3.7:80\ntake ACK\noutput ACK\nwrote 9\n\
take 000006040000000000000200000001 000006040000000000000200000002\n> fault 1\noutput ACK 0000080700000000000000000300000001\nwrote 26\n\
client HEADERS of a stream that isn't this client's\n\
open 1 10.0.0.1:80\nopen 3 10.0.0.1:80\n\
output PRE OWN_CLIENT 000017010400000001200207434f4e4e454354010b31302e302e302e313a38300000160104000000030207434f\n\
more 4e4e454354010b31302e302e302e313a3830\nwrote 108\ntake H2_SERVER ACK\noutput ACK\nwrote 9\ntake 00000101040000000288\n> fault 1\n\
output 00000807 00*12 01\nwrote 17\n\
server HEADERS on a skipped stream\n\
output OWN_SERVER\nwrote 21\ntake PRE H2_CLIENT 0000130104000000014287bdab4e9c17b7ff4188081702e15ddb8f03\n\
> opened 1 open 99 :method=CONNECT,:authority=10.0.1.7:80\ntake 00000b010400000003bf4188081702ecaeedc781\n\
> opened 3 open 99 :method=CONNECT,:authority=10.0.3.7:80\ntake ACK\noutput ACK\nwrote 9\ntake 00000101040000000982\n\
> opened 9 open 42 :method=GET\ntake 00000101040000000782\n> fault 5\noutput 0000080700000000000000000900000005\nwrote 17\n\
client one answer\n\
open 1 10.0.0.1:80\noutput PRE OWN_CLIENT 000017010400000001200207434f4e4e454354010b31302e302e302e313a3830\nwrote 77\ntake H2_SERVER ACK\n\
output ACK\nwrote 9\ntake 00000101040000000188\n> opened 1 open 42 :status=200\ntake 00000500000000000168656c6c6f\n> chunk 1 68656c6c6f\n\
some 1 5 776f726c64\noutput 000005000000000001776f726c64\nwrote 14\nend 1\noutput 000000000100000001\nwrote 9\ntake 000000000100000001\n\
> chunk 1\n> ended 1\n\
client trailers and interim answers\n\
open 1 10.0.0.1:80 end\nopen 3 a.example:1 end\n\
output PRE OWN_CLIENT 000017010500000001200207434f4e4e454354010b31302e302e302e313a38300000160105000000030207434f\n\
more 4e4e454354010b612e6578616d706c653a31\nwrote 108\ntake H2_SERVER ACK\noutput ACK\nwrote 9\ntake 00000401040000000148820801\n\
> opened 1 open 42 :status=100\ntake 000007010400000001488208196d81f3\n> opened 1 open 79 :status=103,link=x\n\
take 00000e010400000001885f8b1d75d0620d263d4c4d6564\n> opened 1 open 102 :status=200,content-type=application/grpc\n\
take 000009000000000001 61*9\n> chunk 1 61*9\ntake 00000c01050000000140889acac8b21234da8f8107\n> opened 1 end 44 grpc-status=0\n\
take 00000501050000000348836c0cff\n> opened 3 end 42 :status=503\n\
client the peers limit of streams\n\
take H2_SERVER 000006040000000000000300000002\nopen 1 10.0.0.1:80\nopen 3 10.0.0.1:80\nopen 0 10.0.0.1:80\n\
output PRE OWN_CLIENT ACK ACK 000017010400000001200207434f4e4e454354010b31302e302e302e313a3830000016010400000003\n\
more 0207434f4e4e454354010b31302e302e302e313a3830\nwrote 126\ntake ACK\nreset 1 8\nopen 5 10.0.0.2:80\nopen 0 10.0.0.3:80\n\
output 000004030000000001000000080000160104000000050207434f4e4e454354010b31302e302e302e323a3830\nwrote 44\ntake 0000010105000000038d\n\
> opened 3 end 42 :status=404\nopen 0 10.0.0.3:80\nend 3\nopen 7 10.0.0.4:80\n\
output 0000000001000000030000160104000000070207434f4e4e454354010b31302e302e302e343a3830\nwrote 40\n\
client the server goes away\n\
open 1 10.0.0.1:80\nopen 3 10.0.0.1:80\nopen 5 10.0.0.1:80\n\
output PRE OWN_CLIENT 000017010400000001200207434f4e4e454354010b31302e302e302e313a38300000160104000000030207434f\n\
more 4e4e454354010b31302e302e302e313a38300000160104000000050207434f4e4e454354010b31302e302e302e313a3830\nwrote 139\ntake H2_SERVER ACK\n\
output ACK\nwrote 9\ntake 00000101040000000188\n> opened 1 open 42 :status=200\ntake 0000080700000000000000000300000000\n> gone 3\n\
some 1 8 6161616161616161\noutput 0000080000000000016161616161616161\nwrote 17\n\
client the server refuses\n\
open 1 10.0.0.1:80\nopen 3 10.0.0.1:80\nopen 5 10.0.0.1:80\n\
output PRE OWN_CLIENT 000017010400000001200207434f4e4e454354010b31302e302e302e313a38300000160104000000030207434f\n\
more 4e4e454354010b31302e302e302e313a38300000160104000000050207434f4e4e454354010b31302e302e302e313a3830\nwrote 139\ntake H2_SERVER ACK\n\
output ACK\nwrote 9\ntake 00000403000000000100000007\n> reset 1 7\ntake 0000050105000000034883680cff\n> opened 3 end 42 :status=403\n\
reset 3 0\nsome 5 0 61*67 41*33\ntake 00000403000000000500000008\n> reset 5 8\noutput 00000403000000000300000000\nwrote 13\n\
server another preface\n\
take 505249202a20485454502f322e300d0a0d0a534d0d0a0d0b\n> fault 1\noutput OWN_SERVER 00000807 00*12 01\nwrote 38\n\
server SETTINGS come first\n\
take PRE 00000806 00*13\n> fault 1\noutput OWN_SERVER 00000807 00*12 01\nwrote 38\n\
client an acknowledgement comes first\n\
take ACK\n> fault 1\noutput PRE OWN_CLIENT 00000807 00*12 01\nwrote 62\n\
server by chance, seed 0\n\
output OWN_SERVER\nwrote 3\ntake PRE H2_CLIENT\noutput 040000000000000300000064000600004000000000040100000000\nwrote 27\n\
take ACK 00000806000000000068f4e2851f072fcc\noutput 00000806010000000068f4e2851f072fcc\nwrote 17\ntake 000006040000000000000400000000\n\
output ACK\nwrote 9\ntake 0000130104000000014287bdab4e9c17b7ff4188081702e15ddb8f03\n\
> opened 1 open 99 :method=CONNECT,:authority=10.0.1.7:80\ntake 0000080600000000005e605f1085f3232d\n\
output 0000080601000000005e605f1085f3232d\nwrote 17\ntake 003f0100080000000100 61*10752 41*5376\n> chunk 1 61*10752 41*5376\nstatus 1 200\n\
output 0000020104000000012088\nwrote 3\nend 1\ntake 00000806000000000057aada1f334a7017 00000b010400000003bf4188081702ecaeedc781\n\
> opened 3 open 99 :method=CONNECT,:authority=10.0.3.7:80\nstatus 3 400 end\n\
output 010400000001208800000000010000000100000806010000000057aada1f334a70170000010105000000038c\nwrote 44\n\
take 00000b010500000005c04188081702edaeedc781\n> opened 5 end 99 :method=CONNECT,:authority=10.0.5.7:80\n\
take 00000b010400000007c14188081702eeaeedc781\n> opened 7 open 99 :method=CONNECT,:authority=10.0.7.7:80\ntake 00000403000000000300000000\n\
> reset 3 0\nreset 7 8\noutput 00000403000000000700000008\nwrote 13\n\
take 00000408000000000100009c40 00000b010400000009c24188081702efaeedc781\n> opened 9 open 99 :method=CONNECT,:authority=10.0.9.7:80\n\
client by chance, seed 1\n\
take H2_SERVER 00000408000000000000000001\noutput PRE OWN_CLIENT ACK\nwrote 13\ntake 00000806000000000001e4887534a20f0b\n\
output 300d0a0d0a534d0d0a0d0a00000c04000000000000020000000000060000400000000004010000000000000806010000000001e4\nmore 887534a20f0b\n\
wrote 13\noutput 0c04000000000000020000000000060000400000000004010000000000000806010000000001e4887534a20f0b\nwrote 45\n\
take ACK 000008060000000000335f973daad8619b\noutput 000008060100000000335f973daad8619b\nwrote 17\nopen 1 10.0.0.0:80\n\
output 000017010400000001200207434f4e4e454354010b31302e302e302e303a3830\nwrote 13\nopen 3 10.0.0.1:80\n\
output 4f4e4e454354010b31302e302e302e303a38300000160104000000030207434f4e4e454354010b31302e302e302e313a3830\nwrote 50\n\
take 00000604000000000000040000000a\nopen 5 10.0.0.2:80\nsome 1 0 61*6000 41*3000\nend 3\ntake 00000408000000000000009c40\n\
output ACK 0000160104000000050207434f4e4e454354010b31302e302e302e323a3830000000000100000003\nwrote 13\ntake 00000501040000000348836c0cff\n\
> opened 3 open 42 :status=503\ntake 00000408000000000300000064 00000403000000000300000008\n> reset 3 8\nopen 7 10.0.0.3:80 end\n\
output 04000000050207434f4e4e454354010b31302e302e302e323a38300000160105000000070207434f4e4e454354010b31302e302e\nmore 302e333a3830\n\
wrote 3\ntake 00000101040000000188\n> opened 1 open 42 :status=200\n\
output 00050207434f4e4e454354010b31302e302e302e323a38300000160105000000070207434f4e4e454354010b31302e302e302e33\nmore 3a3830\nwrote 55\n\
take 000008060000000000afd7608437816bdd\noutput 000008060100000000afd7608437816bdd\nwrote 17\n\
";

// server by chance, seed 2: h2 saw RemoteSettingsChanged; SettingsAcknowledged; PingAckReceived; PingAckReceived; SettingsAcknowledged;
// PingAckReceived; StreamReset 3 5; SettingsAcknowledged; ResponseReceived 1 :status=431; StreamEnded 1; PingAckReceived
// client by chance, seed 3: h2 saw RemoteSettingsChanged; SettingsAcknowledged; SettingsAcknowledged; SettingsAcknowledged;
// RequestReceived 1 :method=CONNECT :authority=10.0.0.0:80; RequestReceived 3 :method=CONNECT :authority=10.0.0.1:80; DataReceived 3 1;
// DataReceived 3 0; StreamEnded 3; RequestReceived 5 :method=CONNECT :authority=10.0.0.2:80; StreamReset 1 7; SettingsAcknowledged;
// StreamReset 5 7; RequestReceived 7 :method=CONNECT :authority=10.0.0.3:80
// server by chance, seed 4: h2 saw RemoteSettingsChanged; SettingsAcknowledged; PingAckReceived; ResponseReceived 1 :status=200;
// ResponseReceived 3 :status=200; DataReceived 3 5; DataReceived 1 9000; StreamReset 3 1; PingAckReceived; StreamReset 1 5;
// PingAckReceived
// client by chance, seed 5: h2 saw RemoteSettingsChanged; SettingsAcknowledged; RequestReceived 1 :method=CONNECT :authority=10.0.0.0:80;
// SettingsAcknowledged; RequestReceived 3 :method=CONNECT :authority=10.0.0.1:80; DataReceived 1 16384; DataReceived 3 2000;
// SettingsAcknowledged; RequestReceived 5 :method=CONNECT :authority=10.0.0.2:80; DataReceived 5 0; StreamEnded 5
// server by chance, seed 6: h2 saw RemoteSettingsChanged; SettingsAcknowledged; PingAckReceived; SettingsAcknowledged;
// ResponseReceived 3 :status=200; PingAckReceived; ResponseReceived 5 :status=431; StreamEnded 5; PingAckReceived; StreamReset 3 1
// client by chance, seed 7: h2 saw RemoteSettingsChanged; SettingsAcknowledged; RequestReceived 1 :method=CONNECT :authority=10.0.0.0:80;
// StreamEnded 1; PingAckReceived; SettingsAcknowledged; RequestReceived 3 :method=CONNECT :authority=10.0.0.1:80;
// RequestReceived 5 :method=CONNECT :authority=10.0.0.2:80; StreamEnded 5; RequestReceived 7 :method=CONNECT :authority=10.0.0.3:80;
// StreamReset 3 0; DataReceived 7 0; StreamEnded 7; PingAckReceived
pub const PART_8: &[u8] = b"\
server by chance, seed 2\n\
take PRE H2_CLIENT 0000130104000000014287bdab4e9c17b7ff4188081702e15ddb8f03\n> opened 1 open 99 :method=CONNECT,:authority=10.0.1.7:80\n\
output OWN_SERVER ACK\nwrote 30\ntake ACK 00000b010400000003bf4188081702ecaeedc781\n\
> opened 3 open 99 :method=CONNECT,:authority=10.0.3.7:80\ntake 000000000100000003\n> chunk 3\n> ended 3\n\
take 000008060000000000545a78760c5aa658\noutput 000008060100000000545a78760c5aa658\nwrote 17\n\
take 00000408000000000000004000 000008060000000000e452ccec7ffa8eff 00000604000000000000040000ffff\n\
output 000008060100000000e452ccec7ffa8eff000000040100000000\nwrote 3\ntake 00000408000000000000004000 000000000100000001\n> chunk 1\n\
> ended 1\noutput 060100000000e452ccec7ffa8eff000000040100000000\nwrote 23\n\
take 000008060000000000b9b8587f0c2a3a22 00000b010500000005c04188081702edaeedc781\n\
> opened 5 end 99 :method=CONNECT,:authority=10.0.5.7:80\noutput 000008060100000000b9b8587f0c2a3a22\nwrote 17\n\
take 00000408000000000000000001\nreset 3 5\ntake 00000408000000000000000001\noutput 00000403000000000300000005\nwrote 3\n\
take 00000b010400000007c14188081702eeaeedc781\n> opened 7 open 99 :method=CONNECT,:authority=10.0.7.7:80\n\
take 00000604000000000000040000ffff\noutput 03000000000300000005000000040100000000\nwrote 3\nstatus 1 431 end\n\
take 00000403000000000700000002\n> reset 7 2\noutput 00000300000005000000040100000000000006010500000001200803343331\nwrote 31\n\
take 0000080600000000007e77e325802974b8\noutput 0000080601000000007e77e325802974b8\nwrote 17\n\
client by chance, seed 3\n\
take H2_SERVER 000006040000000000000400011170\noutput PRE OWN_CLIENT ACK ACK\nwrote 13\n\
take 00000604000000000000040000ffff 00000408000000000000000001\n\
output 300d0a0d0a534d0d0a0d0a00000c0400000000000002000000000006000040000000000401000000000000000401000000000000\nmore 00040100000000\n\
wrote 59\ntake ACK\nopen 1 10.0.0.0:80\nsome 1 0 61*1334 41*666\noutput 000017010400000001200207434f4e4e454354010b31302e302e302e303a3830\n\
wrote 32\ntake 0000010104000000018d\n> opened 1 open 42 :status=404\nopen 3 10.0.0.1:80\n\
output 0000160104000000030207434f4e4e454354010b31302e302e302e313a3830\nwrote 31\nsome 3 1 63\ntake 00012c000100000001 62*200 42*100\n\
> chunk 1 62*200 42*100\n> ended 1\noutput 00000100000000000363\nwrote 10\nend 3\noutput 000000000100000003\nwrote 9\nopen 5 10.0.0.2:80\n\
take 00000501040000000348836c0cff\n> opened 3 open 42 :status=503\ntake 00000403000000000300000002\n> reset 3 2\n\
output 0000160104000000050207434f4e4e454354010b31302e302e302e323a3830\nwrote 31\nsome 5 9000 64*6000 44*3000\nreset 1 7\n\
take 00000408000000000000009c40 000006040000000000000400000000\nreset 5 7\n\
output 0000040300000000010000000700000004010000000000000403000000000500000007\nwrote 35\nopen 7 10.0.0.3:80\n\
take 000001010400000005be 00000408000000000000000064\noutput 0000160104000000070207434f4e4e454354010b31302e302e302e333a3830\nwrote 3\n\
output 0104000000070207434f4e4e454354010b31302e302e302e333a3830\nwrote 28\n\
server by chance, seed 4\n\
take PRE H2_CLIENT 000008060000000000220acd941e71b88d 00000408000000000000000001\n\
output OWN_SERVER ACK 000008060100000000220acd941e71b88d\nwrote 47\ntake ACK 0000130104000000014287bdab4e9c17b7ff4188081702e15ddb8f03\n\
> opened 1 open 99 :method=CONNECT,:authority=10.0.1.7:80\ntake 000000000100000001\n> chunk 1\n> ended 1\n\
take 00000b010400000003bf4188081702ecaeedc781\n> opened 3 open 99 :method=CONNECT,:authority=10.0.3.7:80\n\
take 00000b010400000005c04188081702edaeedc781\n> opened 5 open 99 :method=CONNECT,:authority=10.0.5.7:80\ntake 00000403000000000500000008\n\
> reset 5 8\nstatus 1 200\ntake 0008d0000800000003ff 61*1334 41*666 00*255\n> chunk 3 61*1334 41*666\nstatus 3 200\n\
output 000002010400000001208800000101040000000388\nwrote 21\nsome 3 5 6262626262\noutput 0000050000000000036262626262\nwrote 14\n\
take 000006000800000003006363636363\n> chunk 3 6363636363\ntake 00000408000000000300004000\nsome 1 9000 64*6000 44*3000\n\
take 00000408000000000300000001\noutput 002328000000000001 64*6000 44*3000\nwrote 9009\n\
take 00000408000000000300004000 0000080105000000034084f2b22da7810f\n> broken 3 1\ntake 00000806000000000070d7e37fdb6eff60\n\
output 0000040300000000030000000100000806010000000070d7e37fdb6eff60\nwrote 30\nreset 1 5\ntake 000008060000000000a13bce14fdc62fdc\n\
output 00000403000000000100000005000008060100000000a13bce14fdc62fdc\nwrote 30\n\
client by chance, seed 5\n\
take H2_SERVER\noutput PRE OWN_CLIENT ACK\nwrote 13\n\
output 300d0a0d0a534d0d0a0d0a00000c040000000000000200000000000600004000000000040100000000\nwrote 41\ntake ACK\nopen 1 10.0.0.0:80\n\
output 000017010400000001200207434f4e4e454354010b31302e302e302e303a3830\nwrote 32\ntake 00000604000000000000040000ffff\noutput ACK\n\
wrote 9\nopen 3 10.0.0.1:80\noutput 0000160104000000030207434f4e4e454354010b31302e302e302e313a3830\nwrote 31\n\
some 1 16384 61*10923 41*5461\ntake 00000101040000000388\n> opened 3 open 42 :status=200\noutput 004000000000000001 61*10923 41*5461\n\
wrote 16393\nsome 3 2000 62*1334 42*666\ntake 00000101040000000188\n> opened 1 open 42 :status=200\ntake 000006040000000000000400000bb8\n\
open 5 10.0.0.2:80\noutput 0007d0000000000003 62*1334 42*666 0000000401000000000000160104000000050207434f4e4e454354010b31302e302e30\n\
more 2e323a3830\nwrote 13\noutput 62*1330 42*666 0000000401000000000000160104000000050207434f4e4e454354010b31302e302e302e323a3830\n\
wrote 2036\nsome 1 0 63*27 43*13\ntake 0000010104000000058d\n> opened 5 open 42 :status=404\nsome 1 0 64*200 44*100\nend 5\n\
output 000000000100000005\nwrote 9\ntake 00000408000000000000000064\nsome 1 0\nsome 1 0 66*6000 46*3000\n\
server by chance, seed 6\n\
output OWN_SERVER\nwrote 21\ntake PRE H2_CLIENT 000008060000000000f0bfa30b8bfa65d3 ACK\noutput ACK 000008060100000000f0bfa30b8bfa65d3\n\
wrote 26\ntake 0000130104000000014287bdab4e9c17b7ff4188081702e15ddb8f03\n> opened 1 open 99 :method=CONNECT,:authority=10.0.1.7:80\n\
take 00000b010400000003bf4188081702ecaeedc781\n> opened 3 open 99 :method=CONNECT,:authority=10.0.3.7:80\n\
take 00000408000000000000000064 000006040000000000000400011170\nstatus 3 200\noutput ACK 0000020104000000032088\nwrote 20\n\
take 00000b010400000005c04188081702edaeedc781\n> opened 5 open 99 :method=CONNECT,:authority=10.0.5.7:80\n\
take 000008060000000000daf19bd12b6288e7\noutput 000008060100000000daf19bd12b6288e7\nwrote 17\n\
take 00000b010400000007c14188081702eeaeedc781\n> opened 7 open 99 :method=CONNECT,:authority=10.0.7.7:80\nstatus 5 431 end\n\
take 00000806000000000048c1fe9cefa5bb53 0000080105000000034084f2b22da7810f\n> broken 3 1\ntake 00000408000000000700000001\n\
output 000005010500000005080334333100000806010000000048c1fe9cefa5bb5300000403000000000300000001\nwrote 44\ntake 000000000000000005\n\
> chunk 5\ntake 000128000800000001ff 62*27 42*13 00*255\n> chunk 1 62*27 42*13\n\
client by chance, seed 7\n\
take H2_SERVER\noutput PRE OWN_CLIENT ACK\nwrote 54\ntake ACK\nopen 1 10.0.0.0:80 end\n\
output 000017010500000001200207434f4e4e454354010b31302e302e302e303a3830\nwrote 32\ntake 000008060000000000d91e3f721fcb1971\n\
output 000008060100000000d91e3f721fcb1971\nwrote 3\ntake 00000408000000000000000001\noutput 060100000000d91e3f721fcb1971\nwrote 3\n\
output 000000d91e3f721fcb1971\nwrote 11\ntake 000006040000000000000400011170\noutput ACK\nwrote 3\nopen 3 10.0.0.1:80\n\
output 0401000000000000160104000000030207434f4e4e454354010b31302e302e302e313a3830\nwrote 13\nsome 3 0 61*10923 41*5461\n\
open 5 10.0.0.2:80 end\noutput 00030207434f4e4e454354010b31302e302e302e313a38300000160105000000050207434f4e4e454354010b31302e302e302e32\n\
more 3a3830\nwrote 55\nopen 7 10.0.0.3:80\noutput 0000160104000000070207434f4e4e454354010b31302e302e302e333a3830\nwrote 31\n\
take 00000101040000000388\n> opened 3 open 42 :status=200\ntake 00000408000000000300000064\nreset 3 0\ntake 00000408000000000000004000\n\
end 7\ntake 00000501040000000748836c0cff\n> opened 7 open 42 :status=503\ntake 000008060000000000226ae15338ae1a34\n\
output 00000403000000000300000000000000000100000007000008060100000000226ae15338ae1a34\nwrote 39\n\
";

// server by chance, seed 8: h2 saw RemoteSettingsChanged; SettingsAcknowledged; SettingsAcknowledged; PingAckReceived; PingAckReceived;
// SettingsAcknowledged; PingAckReceived; StreamReset 1 7; ResponseReceived 3 :status=200; PingAckReceived; SettingsAcknowledged
// client by chance, seed 9: h2 saw RemoteSettingsChanged; SettingsAcknowledged; SettingsAcknowledged;
// RequestReceived 1 :method=CONNECT :authority=10.0.0.0:80; PingAckReceived; DataReceived 1 10; DataReceived 1 0; StreamEnded 1;
// RequestReceived 3 :method=CONNECT :authority=10.0.0.1:80; DataReceived 3 0; StreamEnded 3;
// RequestReceived 5 :method=CONNECT :authority=10.0.0.2:80; PingAckReceived; RequestReceived 7 :method=CONNECT :authority=10.0.0.3:80;
// SettingsAcknowledged
// server by chance, seed 10: h2 saw RemoteSettingsChanged; SettingsAcknowledged; PingAckReceived; ResponseReceived 1 :status=200;
// SettingsAcknowledged; PingAckReceived; DataReceived 1 3000; SettingsAcknowledged; PingAckReceived; SettingsAcknowledged;
// SettingsAcknowledged
// client by chance, seed 11: h2 saw RemoteSettingsChanged; SettingsAcknowledged; RequestReceived 1 :method=CONNECT :authority=10.0.0.0:80;
// RequestReceived 3 :method=CONNECT :authority=10.0.0.1:80; DataReceived 1 1; DataReceived 3 0; StreamEnded 3; PingAckReceived;
// RequestReceived 5 :method=CONNECT :authority=10.0.0.2:80; PingAckReceived; DataReceived 1 0; StreamEnded 1; PingAckReceived;
// RequestReceived 7 :method=CONNECT :authority=10.0.0.3:80; DataReceived 7 0; StreamEnded 7;
// RequestReceived 9 :method=CONNECT :authority=10.0.0.4:80; DataReceived 9 0; StreamEnded 9; SettingsAcknowledged; DataReceived 5 0;
// StreamEnded 5
// server by chance, seed 12: h2 saw RemoteSettingsChanged; SettingsAcknowledged; PingAckReceived; StreamReset 1 5; SettingsAcknowledged
// client by chance, seed 13: h2 saw RemoteSettingsChanged; SettingsAcknowledged; RequestReceived 1 :method=CONNECT :authority=10.0.0.0:80;
// StreamReset 1 7; SettingsAcknowledged; SettingsAcknowledged; RequestReceived 3 :method=CONNECT :authority=10.0.0.1:80; PingAckReceived
// server by chance, seed 14: h2 saw RemoteSettingsChanged; SettingsAcknowledged; SettingsAcknowledged; StreamReset 1 0;
// ResponseReceived 3 :status=200; DataReceived 3 0; StreamEnded 3
pub const PART_9: &[u8] = b"\
server by chance, seed 8\n\
take PRE H2_CLIENT 000006040000000000000400000000\noutput OWN_SERVER ACK ACK\nwrote 13\n\
output 0064000600004000000000040100000000000000040100000000\nwrote 26\n\
take 00000408000000000000000064 000008060000000000ce2df8770a88d0f2 ACK 000008060000000000482013fa634be9e3\n\
output 000008060100000000ce2df8770a88d0f2000008060100000000482013fa634be9e3\nwrote 13\noutput 0a88d0f2000008060100000000482013fa634be9e3\n\
wrote 21\ntake 000006040000000000000400000000 00000408000000000000004000\noutput ACK\nwrote 3\n\
take 0000130104000000014287bdab4e9c17b7ff4188081702e15ddb8f03\n> opened 1 open 99 :method=CONNECT,:authority=10.0.1.7:80\n\
take 000008060000000000ca3b550d6752993b\nreset 1 7\noutput 040100000000000008060100000000ca3b550d6752993b00000403000000000100000007\n\
wrote 36\ntake 00000408000000000000009c40 00000b010400000003bf4188081702ecaeedc781\n\
> opened 3 open 99 :method=CONNECT,:authority=10.0.3.7:80\ntake 0007d100080000000300 61*1334 41*666\n> chunk 3 61*1334 41*666\n\
status 3 200\noutput 0000020104000000032088\nwrote 11\ncredit 3 2000\ntake 00000b010400000005c04188081702edaeedc781\n\
> opened 5 open 99 :method=CONNECT,:authority=10.0.5.7:80\ntake 00000806000000000037e740e12ef1c9b8\n\
output 00000806010000000037e740e12ef1c9b8\nwrote 17\nsome 3 0 62*10923 42*5461\ntake 00000b010400000007c14188081702eeaeedc781\n\
> opened 7 open 99 :method=CONNECT,:authority=10.0.7.7:80\ntake 00000604000000000000040000000a\noutput ACK\nwrote 9\n\
client by chance, seed 9\n\
take H2_SERVER\noutput PRE OWN_CLIENT ACK\nwrote 54\ntake ACK 00000408000000000000009c40 00000604000000000000040000000a\noutput ACK\n\
wrote 9\nopen 1 10.0.0.0:80\noutput 000017010400000001200207434f4e4e454354010b31302e302e302e303a3830\nwrote 32\n\
take 000008060000000000d939013e6567a904\noutput 000008060100000000d939013e6567a904\nwrote 17\ntake 00000408000000000000000001\n\
some 1 10 61*6000 41*3000\noutput 00000a000000000001 61*10\nwrote 19\nsome 1 0 62*1334 42*666\ntake 0000010104000000018d\n\
> opened 1 open 42 :status=404\nend 1\noutput 000000000100000001\nwrote 9\nopen 3 10.0.0.1:80\nend 3\n\
output 0000160104000000030207434f4e4e454354010b31302e302e302e313a3830000000000100000003\nwrote 40\nopen 5 10.0.0.2:80\n\
take 000008060000000000bd479457840f1958\n\
output 0000160104000000050207434f4e4e454354010b31302e302e302e323a3830000008060100000000bd479457840f1958\nwrote 48\nopen 7 10.0.0.3:80\n\
take 000006040000000000000400000bb8\noutput 0000160104000000070207434f4e4e454354010b31302e302e302e333a3830000000040100000000\nwrote 3\n\
output 0104000000070207434f4e4e454354010b31302e302e302e333a3830000000040100000000\nwrote 37\n\
server by chance, seed 10\n\
take PRE H2_CLIENT 0000130104000000014287bdab4e9c17b7ff4188081702e15ddb8f03\n> opened 1 open 99 :method=CONNECT,:authority=10.0.1.7:80\n\
take 0000080600000000008e5211faa7267fb8\nstatus 1 200\n\
take 000006040000000000000400000bb8 000008060000000000a65072d37a1210fe 00000408000000000000000001\n\
output OWN_SERVER ACK 0000080601000000008e5211faa7267fb800000201040000000120880000000401000000000000080601000000\nmore 00a65072d37a1210fe\n\
wrote 84\ntake ACK\nsome 1 3000 61*10923 41*5461\ntake 00000604000000000000040000000a\n\
output 000bb8000000000001 61*3000 000000040100000000\nwrote 3\noutput 000000000001 61*3000 000000040100000000\nwrote 3015\n\
take 00000408000000000000009c40\nsome 1 0 62*6000 42*3000\ntake 000128000800000001ff 63*27 43*13 00*255\n> chunk 1 63*27 43*13\n\
take 00000403000000000100000008\n> reset 1 8\ntake 000008060000000000c6fa54e132d41201\noutput 000008060100000000c6fa54e132d41201\nwrote 3\n\
output 060100000000c6fa54e132d41201\nwrote 14\n\
take 00000408000000000000009c40 000006040000000000000400011170 00000408000000000000000001 000006040000000000000400011170\noutput ACK ACK\n\
wrote 18\n\
client by chance, seed 11\n\
take H2_SERVER\noutput PRE OWN_CLIENT ACK\nwrote 54\ntake ACK\nopen 1 10.0.0.0:80\n\
output 000017010400000001200207434f4e4e454354010b31302e302e302e303a3830\nwrote 32\nopen 3 10.0.0.1:80\n\
output 0000160104000000030207434f4e4e454354010b31302e302e302e313a3830\nwrote 31\nsome 1 1 61\nend 3\n\
take 0000080600000000008ed02a82a175930f\noutput 000001000000000001610000000001000000030000080601000000008ed02a82a175930f\nwrote 36\n\
open 5 10.0.0.2:80\noutput 0000160104000000050207434f4e4e454354010b31302e302e302e323a3830\nwrote 31\n\
take 00000806000000000007d13c447e33051e 00000501040000000348836c0cff\n> opened 3 open 42 :status=503\n\
output 00000806010000000007d13c447e33051e\nwrote 13\nend 1\ntake 00000408000000000000000064 0000080600000000009b0a6b5fc933154a\n\
open 7 10.0.0.3:80\nend 7\ntake 00000101040000000188\n> opened 1 open 42 :status=200\ntake 00000403000000000300000008\n> reset 3 8\n\
output 7e33051e0000000001000000010000080601000000009b0a6b5fc933154a0000160104000000070207434f4e4e454354010b3130\n\
more 2e302e302e333a3830000000000100000007\nwrote 70\nopen 9 10.0.0.4:80\nend 9\n\
output 0000160104000000090207434f4e4e454354010b31302e302e302e343a3830000000000100000009\nwrote 3\n\
output 0104000000090207434f4e4e454354010b31302e302e302e343a3830000000000100000009\nwrote 37\ntake 00000101040000000588\n\
> opened 5 open 42 :status=200\ntake 000105000800000001ff6262626262 00*255\n> chunk 1 6262626262\ntake 00000101040000000788\n\
> opened 7 open 42 :status=200\ntake 0000020008000000070063\n> chunk 7 63\ntake 0000010104000000098d\n> opened 9 open 42 :status=404\n\
take 00000604000000000000040000000a\nend 5\ntake 00000408000000000700004000 00000c01050000000140889acac8b21234da8f8107\n\
> opened 1 end 44 grpc-status=0\ntake 00000403000000000900000008\n> reset 9 8\noutput ACK 000000000100000005\nwrote 3\n\
output 040100000000000000000100000005\nwrote 15\n\
server by chance, seed 12\n\
take PRE H2_CLIENT 00000408000000000000009c40\noutput OWN_SERVER ACK\nwrote 3\n\
output 040000000000000300000064000600004000000000040100000000\nwrote 27\ntake ACK 000008060000000000a0531a572acdd6f0\n\
output 000008060100000000a0531a572acdd6f0\nwrote 17\n\
take 00000408000000000000000001 0000130104000000014287bdab4e9c17b7ff4188081702e15ddb8f03\n\
> opened 1 open 99 :method=CONNECT,:authority=10.0.1.7:80\ntake 004000000000000001 61*10923 41*5461\n> chunk 1 61*10923 41*5461\n\
reset 1 5\ntake 00000b010400000003bf4188081702ecaeedc781\n> opened 3 open 99 :method=CONNECT,:authority=10.0.3.7:80\n\
output 00000403000000000100000005\nwrote 13\ntake 000006040000000000000400000bb8 00000403000000000300000008\n> reset 3 8\n\
take 00000408000000000000000001 00000b010400000005c04188081702edaeedc781\n> opened 5 open 99 :method=CONNECT,:authority=10.0.5.7:80\n\
output ACK\nwrote 3\noutput 040100000000\nwrote 6\ntake 00000408000000000500000064\n\
client by chance, seed 13\n\
take H2_SERVER 00000408000000000000000064 00000408000000000000000001\nopen 1 10.0.0.0:80\nreset 1 7\ntake 00000408000000000000009c40\n\
output PRE OWN_CLIENT ACK 000017010400000001200207434f4e4e454354010b31302e302e302e303a38300000040300000000010000\nmore 0007\nwrote 99\n\
take ACK 00000408000000000000000064 00000604000000000000040000000a 000006040000000000000400000bb8\noutput ACK ACK\nwrote 18\n\
take 00000408000000000000000064\nopen 3 10.0.0.1:80\noutput 0000160104000000030207434f4e4e454354010b31302e302e302e313a3830\nwrote 3\n\
take 0000080600000000009f3ed09a8927f0bb\n\
output 0104000000030207434f4e4e454354010b31302e302e302e313a38300000080601000000009f3ed09a8927f0bb\nwrote 45\n\
server by chance, seed 14\n\
output OWN_SERVER\nwrote 3\noutput 040000000000000300000064000600004000\nwrote 18\ntake PRE H2_CLIENT ACK 00000408000000000000000064\n\
output ACK\nwrote 9\ntake 0000130104000000014287bdab4e9c17b7ff4188081702e15ddb8f03\n\
> opened 1 open 99 :method=CONNECT,:authority=10.0.1.7:80\ntake 000000000100000001\n> chunk 1\n> ended 1\n\
take 000006040000000000000400011170\nreset 1 0\ntake 00000408000000000000000001\noutput ACK 00000403000000000100000000\nwrote 22\n\
take 00000408000000000000004000 00000b010400000003bf4188081702ecaeedc781\n> opened 3 open 99 :method=CONNECT,:authority=10.0.3.7:80\n\
status 3 200\noutput 0000020104000000032088\nwrote 11\nend 3\noutput 000000000100000003\nwrote 9\ntake 00000408000000000000009c40\n\
";

// client by chance, seed 15: h2 saw RemoteSettingsChanged; SettingsAcknowledged; SettingsAcknowledged;
// RequestReceived 1 :method=CONNECT :authority=10.0.0.0:80; StreamEnded 1; PingAckReceived; PingAckReceived;
// RequestReceived 3 :method=CONNECT :authority=10.0.0.1:80; StreamEnded 3; PingAckReceived; PingAckReceived;
// RequestReceived 5 :method=CONNECT :authority=10.0.0.2:80; RequestReceived 7 :method=CONNECT :authority=10.0.0.3:80; PingAckReceived;
// DataReceived 7 0; StreamEnded 7
// server by chance, seed 16: h2 saw RemoteSettingsChanged; SettingsAcknowledged; PingAckReceived; SettingsAcknowledged;
// ResponseReceived 1 :status=400; StreamEnded 1; ResponseReceived 3 :status=200; PingAckReceived; ResponseReceived 5 :status=200;
// StreamReset 5 8; ResponseReceived 9 :status=503; StreamEnded 9; ResponseReceived 7 :status=400; StreamEnded 7; DataReceived 3 1;
// DataReceived 3 0; StreamEnded 3
// client by chance, seed 17: h2 saw RemoteSettingsChanged; SettingsAcknowledged; RequestReceived 1 :method=CONNECT :authority=10.0.0.0:80;
// DataReceived 1 0; StreamEnded 1; RequestReceived 3 :method=CONNECT :authority=10.0.0.1:80; DataReceived 3 16384;
// RequestReceived 5 :method=CONNECT :authority=10.0.0.2:80; PingAckReceived; RequestReceived 7 :method=CONNECT :authority=10.0.0.3:80;
// RequestReceived 9 :method=CONNECT :authority=10.0.0.4:80; StreamReset 7 7; RequestReceived 11 :method=CONNECT :authority=10.0.0.5:80
// server by chance, seed 18: h2 saw RemoteSettingsChanged; SettingsAcknowledged; PingAckReceived; ResponseReceived 1 :status=200;
// ResponseReceived 3 :status=400; StreamEnded 3; DataReceived 1 0; StreamEnded 1; ResponseReceived 5 :status=200
// client by chance, seed 19: h2 saw RemoteSettingsChanged; SettingsAcknowledged; RequestReceived 1 :method=CONNECT :authority=10.0.0.0:80;
// StreamReset 1 7; RequestReceived 3 :method=CONNECT :authority=10.0.0.1:80; RequestReceived 5 :method=CONNECT :authority=10.0.0.2:80;
// RequestReceived 7 :method=CONNECT :authority=10.0.0.3:80; StreamEnded 7; SettingsAcknowledged; SettingsAcknowledged;
// RequestReceived 9 :method=CONNECT :authority=10.0.0.4:80
// server by chance, seed 20: h2 saw RemoteSettingsChanged; SettingsAcknowledged; StreamReset 1 5; PingAckReceived; SettingsAcknowledged;
// SettingsAcknowledged; SettingsAcknowledged
pub const PART_10: &[u8] = b"\
client by chance, seed 15\n\
take H2_SERVER 00000604000000000000040000000a\nopen 1 10.0.0.0:80 end\n\
output PRE OWN_CLIENT ACK ACK 000017010500000001200207434f4e4e454354010b31302e302e302e303a3830\nwrote 3\n\
take 000008060000000000d776e9d6fa28ecb8\n\
output 202a20485454502f322e300d0a0d0a534d0d0a0d0a00000c04000000000000020000000000060000400000000004010000000000\n\
more 0000040100000000000017010500000001200207434f4e4e454354010b31302e302e302e303a3830000008060100000000d776e9d6\nmore fa28ecb8\nwrote 13\n\
take 000008060000000000580892fd4d333bca\n\
output 0d0a534d0d0a0d0a00000c0400000000000002000000000006000040000000000401000000000000000401000000000000170105\n\
more 00000001200207434f4e4e454354010b31302e302e302e303a3830000008060100000000d776e9d6fa28ecb8000008060100000000\nmore 580892fd4d333bca\n\
wrote 113\nopen 3 10.0.0.1:80 end\noutput 0000160105000000030207434f4e4e454354010b31302e302e302e313a3830\nwrote 31\n\
take ACK 0000080600000000009e9f54a2c6f3ace2 00000806000000000007852f932015e61e\nopen 5 10.0.0.2:80\nopen 7 10.0.0.3:80\n\
take 00000101040000000388\n> opened 3 open 42 :status=200\nsome 5 0 61*1334 41*666\ntake 000008060000000000b573ae1e5837ccab\n\
output 0000080601000000009e9f54a2c6f3ace200000806010000000007852f932015e61e0000160104000000050207434f4e4e454354\n\
more 010b31302e302e302e323a38300000160104000000070207434f4e4e454354010b31302e302e302e333a3830000008060100000000\nmore b573ae1e5837ccab\n\
wrote 113\ntake 00000c01050000000340889acac8b21234da8f8107\n> opened 3 end 44 grpc-status=0\nend 7\ntake 0000010104000000078d\n\
> opened 7 open 42 :status=404\ntake 000001010500000007be\n> opened 7 end 44 grpc-status=0\noutput 000000000100000007\nwrote 9\n\
server by chance, seed 16\n\
take PRE H2_CLIENT 000008060000000000d184797105979aab 0000130105000000014287bdab4e9c17b7ff4188081702e15ddb8f03\n\
> opened 1 end 99 :method=CONNECT,:authority=10.0.1.7:80\ntake 000006040000000000000400000bb8\n\
output OWN_SERVER ACK 000008060100000000d184797105979aab000000040100000000\nwrote 56\nstatus 1 400 end\n\
take ACK 00000b010400000003bf4188081702ecaeedc781\n> opened 3 open 99 :method=CONNECT,:authority=10.0.3.7:80\n\
output 000002010500000001208c\nwrote 11\nstatus 3 200\noutput 00000101040000000388\nwrote 10\n\
take 00000b010400000005c04188081702edaeedc781\n> opened 5 open 99 :method=CONNECT,:authority=10.0.5.7:80\n\
take 0000080600000000003ee828ff0b4976cf\noutput 0000080601000000003ee828ff0b4976cf\nwrote 17\nstatus 5 200\n\
take 00000b010400000007c14188081702eeaeedc781\n> opened 7 open 99 :method=CONNECT,:authority=10.0.7.7:80\n\
take 00000b010400000009c24188081702efaeedc781\n> opened 9 open 99 :method=CONNECT,:authority=10.0.9.7:80\n\
take 00014b0008000000051e 61*200 41*100 00*30\n> chunk 5 61*200 41*100\ntake 00000c01040000000bc34189081702e10aeedc781f\n\
> opened 11 open 100 :method=CONNECT,:authority=10.0.11.7:80\ntake 00000403000000000b00000002\n> reset 11 2\noutput 00000101040000000588\n\
wrote 10\nreset 5 8\noutput 00000403000000000500000008\nwrote 13\nstatus 9 503 end\noutput 0000050105000000090803353033\nwrote 3\n\
status 7 400 end\ntake 000128000800000007ff 62*27 42*13 00*255\n> chunk 7 62*27 42*13\noutput 01050000000908033530330000010105000000078c\n\
wrote 21\nsome 3 1 64\nend 3\ntake 004000000000000003 63*10923 43*5461\n> chunk 3 63*10923 43*5461\n\
output 00000100000000000364000000000100000003\nwrote 13\noutput 000100000003\nwrote 6\n\
client by chance, seed 17\n\
take H2_SERVER\nopen 1 10.0.0.0:80\nend 1\n\
output PRE OWN_CLIENT ACK 000017010400000001200207434f4e4e454354010b31302e302e302e303a3830000000000100000001\nwrote 13\n\
output 300d0a0d0a534d0d0a0d0a00000c0400000000000002000000000006000040000000000401000000000000170104000000012002\n\
more 07434f4e4e454354010b31302e302e302e303a3830000000000100000001\nwrote 82\ntake ACK\nopen 3 10.0.0.1:80\n\
output 0000160104000000030207434f4e4e454354010b31302e302e302e313a3830\nwrote 31\nsome 3 16384 61*10923 41*5461\n\
output 004000000000000003 61*10923 41*5461\nwrote 700\noutput 61*10232 41*5461\nwrote 15693\ntake 0000010104000000038d\n\
> opened 3 open 42 :status=404\nopen 5 10.0.0.2:80\n\
take 0000080600000000006d7fb81d88208d62 00000408000000000000000064 00000408000000000000004000 00000403000000000300000008\n> reset 3 8\n\
output 0000160104000000050207434f4e4e454354010b31302e302e302e323a38300000080601000000006d7fb81d88208d62\nwrote 3\n\
output 0104000000050207434f4e4e454354010b31302e302e302e323a38300000080601000000006d7fb81d88208d62\nwrote 45\nopen 7 10.0.0.3:80\n\
output 0000160104000000070207434f4e4e454354010b31302e302e302e333a3830\nwrote 3\n\
output 0104000000070207434f4e4e454354010b31302e302e302e333a3830\nwrote 28\ntake 00000101040000000188\n> opened 1 open 42 :status=200\n\
take 000100000800000001ff 00*255\n> chunk 1\nopen 9 10.0.0.4:80\ntake 00000501040000000748836c0cff\n> opened 7 open 42 :status=503\n\
output 0000160104000000090207434f4e4e454354010b31302e302e302e343a3830\nwrote 31\ntake 00000c01050000000740889acac8b21234da8f8107\n\
> opened 7 end 44 grpc-status=0\nreset 7 7\ntake 00000101040000000988\n> opened 9 open 42 :status=200\nopen 11 10.0.0.5:80\n\
take 00000101040000000588\n> opened 5 open 42 :status=200\n\
output 0000040300000000070000000700001601040000000b0207434f4e4e454354010b31302e302e302e353a3830\nwrote 44\n\
server by chance, seed 18\n\
take PRE H2_CLIENT 00000408000000000000009c40 0000130104000000014287bdab4e9c17b7ff4188081702e15ddb8f03\n\
> opened 1 open 99 :method=CONNECT,:authority=10.0.1.7:80\noutput OWN_SERVER ACK\nwrote 3\n\
output 040000000000000300000064000600004000000000040100000000\nwrote 27\ntake ACK 000028000000000001 61*27 41*13\n> chunk 1 61*27 41*13\n\
take 00000408000000000000000064 002328000000000001 62*6000 42*3000\n> chunk 1 62*6000 42*3000\n\
take 000008060000000000f5336784adf02dfb 004000000000000001 63*10923 43*5461\n> chunk 1 63*10923 43*5461\n\
output 000008060100000000f5336784adf02dfb\nwrote 3\nstatus 1 200\noutput 060100000000f5336784adf02dfb0000020104000000012088\nwrote 13\n\
output fb0000020104000000012088\nwrote 12\ntake 000006000800000001006464646464\n> chunk 1 6464646464\n\
take 00000b010400000003bf4188081702ecaeedc781\n> opened 3 open 99 :method=CONNECT,:authority=10.0.3.7:80\ntake 000000000100000003\n\
> chunk 3\n> ended 3\nstatus 3 400 end\ntake 00000b010400000005c04188081702edaeedc781\n\
> opened 5 open 99 :method=CONNECT,:authority=10.0.5.7:80\nend 1\ntake 00000408000000000500004000 000000000000000005\n> chunk 5\n\
take 00000408000000000000000064 00012c000000000001 66*200 46*100\n> chunk 1 66*200 46*100\noutput 0000010105000000038c000000000100000001\n\
wrote 3\nstatus 5 200\nsome 5 0\noutput 0105000000038c00000000010000000100000101040000000588\nwrote 26\ncredit 1 12864\n\
take 00000408000000000500000001 0000050000000000056868686868\n> chunk 5 6868686868\n\
client by chance, seed 19\n\
take H2_SERVER\nopen 1 10.0.0.0:80\nreset 1 7\n\
output PRE OWN_CLIENT ACK 000017010400000001200207434f4e4e454354010b31302e302e302e303a38300000040300000000010000\nmore 0007\nwrote 99\n\
take ACK 00000408000000000000000001\nopen 3 10.0.0.1:80\noutput 0000160104000000030207434f4e4e454354010b31302e302e302e313a3830\nwrote 31\n\
take 00000408000000000000000001\nopen 5 10.0.0.2:80\noutput 0000160104000000050207434f4e4e454354010b31302e302e302e323a3830\nwrote 31\n\
open 7 10.0.0.3:80 end\noutput 0000160105000000070207434f4e4e454354010b31302e302e302e333a3830\nwrote 13\n\
take 00000604000000000000040000ffff\noutput 4e4e454354010b31302e302e302e333a3830000000040100000000\nwrote 27\ntake 0000010104000000038d\n\
> opened 3 open 42 :status=404\ntake 00000c01050000000340889acac8b21234da8f8107\n> opened 3 end 44 grpc-status=0\n\
take 00000604000000000000040000000a\nopen 9 10.0.0.4:80\nsome 9 0 61*10923 41*5461\n\
output ACK 0000160104000000090207434f4e4e454354010b31302e302e302e343a3830\nwrote 40\n\
server by chance, seed 20\n\
take PRE H2_CLIENT 00000408000000000000004000\noutput OWN_SERVER ACK\nwrote 13\n\
take 0000130104000000014287bdab4e9c17b7ff4188081702e15ddb8f03\n> opened 1 open 99 :method=CONNECT,:authority=10.0.1.7:80\n\
output 0064000600004000000000040100000000\nwrote 3\ntake 00000100000000000161\n> chunk 1 61\noutput 0600004000000000040100000000\n\
wrote 14\nreset 1 5\ntake ACK 00000408000000000100004000\noutput 00000403000000000100000005\nwrote 13\n\
take 00000408000000000000000064 00000b010400000003bf4188081702ecaeedc781\n> opened 3 open 99 :method=CONNECT,:authority=10.0.3.7:80\n\
take 000008060000000000543ce9aa0625372f\nreset 3 5\ntake 00000403000000000300000000 000006040000000000000400000000\n\
output 000008060100000000543ce9aa0625372f00000403000000000300000005000000040100000000\nwrote 39\ntake 00000604000000000000040000ffff\n\
output ACK\nwrote 3\ntake 000006040000000000000400000000\noutput 040100000000000000040100000000\nwrote 15\n\
";

// client by chance, seed 21: h2 saw RemoteSettingsChanged; SettingsAcknowledged; SettingsAcknowledged;
// RequestReceived 1 :method=CONNECT :authority=10.0.0.0:80; StreamEnded 1; RequestReceived 3 :method=CONNECT :authority=10.0.0.1:80;
// DataReceived 3 9000; PingAckReceived; PingAckReceived; DataReceived 3 1; StreamReset 3 5;
// RequestReceived 5 :method=CONNECT :authority=10.0.0.2:80; DataReceived 5 0; StreamEnded 5; PingAckReceived
// server by chance, seed 22: h2 saw RemoteSettingsChanged; SettingsAcknowledged; SettingsAcknowledged; SettingsAcknowledged;
// PingAckReceived
// client by chance, seed 23: h2 saw RemoteSettingsChanged; SettingsAcknowledged; SettingsAcknowledged;
// RequestReceived 1 :method=CONNECT :authority=10.0.0.0:80; DataReceived 1 0; StreamEnded 1; SettingsAcknowledged
pub const PART_11: &[u8] = b"\
client by chance, seed 21\n\
take H2_SERVER 00000408000000000000000064 00000604000000000000040000ffff\noutput PRE OWN_CLIENT ACK ACK\nwrote 63\nopen 1 10.0.0.0:80 end\n\
output 000017010500000001200207434f4e4e454354010b31302e302e302e303a3830\nwrote 32\nopen 3 10.0.0.1:80\n\
output 0000160104000000030207434f4e4e454354010b31302e302e302e313a3830\nwrote 31\nsome 3 9000 61*6000 41*3000\n\
take ACK 00000101040000000188\n> opened 1 open 42 :status=200\ntake 00000101040000000388\n> opened 3 open 42 :status=200\n\
take 000008060000000000656a243ef3c666ae 0000080600000000002f51fd01fb2371a3\n\
output 002328000000000003 61*6000 41*3000 000008060100000000656a243ef3c666ae0000080601000000002f51fd01fb2371a3\nwrote 9043\nsome 3 1 62\n\
take 00000408000000000300004000\noutput 00000100000000000362\nwrote 10\nreset 3 5\noutput 00000403000000000300000005\nwrote 3\n\
take 00000408000000000000000064\noutput 03000000000300000005\nwrote 10\nopen 5 10.0.0.2:80\nend 5\n\
output 0000160104000000050207434f4e4e454354010b31302e302e302e323a3830000000000100000005\nwrote 3\n\
take 00000408000000000000000064 000000000000000001\n> chunk 1\n\
output 0104000000050207434f4e4e454354010b31302e302e302e323a3830000000000100000005\nwrote 3\n\
take 0000080600000000008d4705c3400c87a6 00000c01050000000140889acac8b21234da8f8107\n> opened 1 end 44 grpc-status=0\n\
output 0000050207434f4e4e454354010b31302e302e302e323a38300000000001000000050000080601000000008d4705c3400c87a6\nwrote 51\n\
take 00000101040000000588\n> opened 5 open 42 :status=200\n\
server by chance, seed 22\n\
output OWN_SERVER\nwrote 21\ntake PRE H2_CLIENT 00000408000000000000000001 ACK\noutput ACK\nwrote 9\n\
take 00000408000000000000009c40 000006040000000000000400011170\noutput ACK\nwrote 9\n\
take 0000130105000000014287bdab4e9c17b7ff4188081702e15ddb8f03\n> opened 1 end 99 :method=CONNECT,:authority=10.0.1.7:80\n\
take 00000b010400000003bf4188081702ecaeedc781\n> opened 3 open 99 :method=CONNECT,:authority=10.0.3.7:80\n\
take 00000604000000000000040000000a 00000403000000000300000000\n> reset 3 0\noutput ACK\nwrote 9\n\
take 00000b010400000005c04188081702edaeedc781\n> opened 5 open 99 :method=CONNECT,:authority=10.0.5.7:80\n\
take 00000806000000000038843d095fb320ae 000128000800000005ff 61*27 41*13 00*255\n> chunk 5 61*27 41*13\ntake 00000403000000000500000000\n\
> reset 5 0\noutput 00000806010000000038843d095fb320ae\nwrote 17\n\
client by chance, seed 23\n\
take H2_SERVER\noutput PRE OWN_CLIENT ACK\nwrote 54\ntake ACK 000006040000000000000400000000 00000408000000000000004000\noutput ACK\n\
wrote 9\ntake 00000408000000000000000001 00000408000000000000009c40 00000408000000000000000001\nopen 1 10.0.0.0:80\n\
output 000017010400000001200207434f4e4e454354010b31302e302e302e303a3830\nwrote 32\nend 1\ntake 00000408000000000000000064\n\
output 000000000100000001\nwrote 3\ntake 00000101040000000188\n> opened 1 open 42 :status=200\ntake 000006040000000000000400011170\n\
output 000100000001000000040100000000\nwrote 15\ntake 00000c01050000000140889acac8b21234da8f8107\n> opened 1 end 44 grpc-status=0\n\
";
