//! Frames one after another, and what each is answered.

use crate::block_frames::{Frame, told_of};
use crate::hex::octets_of;
use crate::told::{assert_told, cut, number_or};
use hb_blocks::Blocks;
use std::alloc::Global;
use std::process::Abort;

/// `n` begins a new connection, and `#` says what the next lines are. A line of a frame has the stream, `e` where it has
/// END_STREAM, `:`, the fragment, `.` where it has END_HEADERS, ` => ` and what it is answered. A CONTINUATION frame has
/// no stream. The blocks are those of RFC 7541 Appendix C.3, or were counted by hand from sections 5 and 6 there.
const ROWS: &str = "\
# The requests of C.3, each in one frame.
n
1e:828684410f7777772e6578616d706c652e636f6d. => w1e 180 |:method|GET|:scheme|http|:path|/|:authority|www.example.com
3e:828684be58086e6f2d6361636865. => w3e 233 \
|:method|GET|:scheme|http|:path|/|:authority|www.example.com|cache-control|no-cache
5e:828785bf400a637573746f6d2d6b65790c637573746f6d2d76616c7565. => w5e 245 \
|:method|GET|:scheme|https|:path|/index.html|:authority|www.example.com|custom-key|custom-value
# The same in fragments: the table of one block is the next one's, and no headers are lent while a block is open.
n
1:8286 => -1 0 \n\
:84410f7777772e6578616d => -1 0 \n\
:706c652e636f6d. => w1 180 |:method|GET|:scheme|http|:path|/|:authority|www.example.com
3e:828684be => -3 0 \n\
:58086e6f2d6361636865. => w3e 233 |:method|GET|:scheme|http|:path|/|:authority|www.example.com|cache-control|no-cache
5: => -5 0 \n\
: => -5 0 \n\
:828785bf400a637573746f6d2d6b65790c637573746f6d2d76616c7565 => -5 0 \n\
:. => w5 245 |:method|GET|:scheme|https|:path|/index.html|:authority|www.example.com|custom-key|custom-value
7:be. => w7 54 |custom-key|custom-value
# END_STREAM is that of HEADERS, and so is the stream; a block may have no octets.
n
2147483647e:82 => -2147483647 0 \n\
1:. => w2147483647e 42 |:method|GET
1:82 => -1 0 \n\
3e:. => w1 42 |:method|GET
9:. => w9 0 \n\
11e: => -11 0 \n\
:. => w11e 0 \n\
# An index of no entry, 0, is refused once its block is whole.
n
1:80. => f9
n
1:80 => -1 0 \n\
:. => f9
n
1:82 => -1 0 \n\
:80 => -1 0 \n\
:82. => f9
# A literal that is cut short; behind the first fragment it would go on.
n
1:410f777777 => -1 0 \n\
:2e6578616d706c. => f9
# Blocks of 32,768 octets, of which a value has 32,762, and of one more.
n
1:00007ffbfe01 76*32762. => w1 32794 \n\
3:00007ffbfe01 76*16378 => -3 0 \n\
:76*16384. => w3 32794 \n\
5:00007ffbfe01 76*32762 => -5 0 \n\
:. => w5 32794 \n\
7:82 => -7 0 \n\
:00007ffafe01 76*32761. => w7 32835 |:method|GET
n
1:00007ffcfe01 76*32763. => f11
n
1:00007ffcfe01 76*32763 => f11
n
1:00007ffcfe01 76*32762 => -1 0 \n\
:76. => f11
n
1:00*16384 => -1 0 \n\
:00*16384 => -1 0 \n\
:00 => f11
# A block that would be refused is too long first.
n
1:80*32768. => f9
n
1:80*32769. => f11
n
1:80*32767 => -1 0 \n\
:8080. => f11";

/// The answer to a frame in words.
fn answer_to(rt: &impl Abort, alloc: Global, blocks: &mut Blocks, words: &str) -> String {
    let (head, rest) = cut(words, ":");
    let (fragment, end_headers) = match rest.strip_suffix('.') {
        Some(fragment) => (fragment, true),
        None => (rest, false),
    };
    let (stream, end_stream) = match head.strip_suffix('e') {
        Some(stream) => (stream, true),
        None => (head, false),
    };
    let octets = octets_of(rt, alloc, fragment);
    let frame = Frame {
        stream: number_or(rt, stream, 0),
        end_stream,
        fragment: octets.as_slice(),
        end_headers,
    };
    told_of(rt, alloc, blocks, frame)
}

fn renew(alloc: Global, blocks: &mut Blocks) {
    *blocks = Blocks::new(alloc);
}

fn assert_line(rt: &impl Abort, alloc: Global, blocks: &mut Blocks, line: &str) {
    let (words, want) = cut(line, " => ");
    let told = answer_to(rt, alloc, blocks, words);
    assert_told(rt, line, told.as_str(), want);
}

fn follow(rt: &impl Abort, alloc: Global, blocks: &mut Blocks) {
    for line in ROWS.lines() {
        if line == "n" {
            renew(alloc, blocks);
        } else if !line.starts_with('#') {
            assert_line(rt, alloc, blocks, line);
        }
    }
}

#[test]
fn fragments_are_put_together_and_decoded(rt: HostRuntime) {
    let mut blocks = Blocks::new(rt.alloc());
    follow(&rt, rt.alloc(), &mut blocks);
}
