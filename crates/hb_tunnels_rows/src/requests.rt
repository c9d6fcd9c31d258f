//! What requests on an inbound link ask for.

use hb_base::{Bytes, Ip, List, read_ip};
use hb_hpack::{Header, HeaderList};
use hb_verdict::{Request, read_request};
use std::alloc::Global;
use std::process::Abort;

/// The destination of the link, the size of the headers as their block tells it, the headers and what is told of them.
const ROWS: &str = "\
10.0.0.7 101 :method=CONNECT; :authority=10.0.0.7:8080 -> port 8080
10.0.0.7 101 :authority=10.0.0.7:8080; :method=CONNECT -> port 8080
10.0.0.7 147 :method=CONNECT; :authority=10.0.0.7:8080; user-agent=curl -> port 8080
10.0.0.7 172 :method=CONNECT; :authority=10.0.0.7:8080; x-y=; x-y=2 -> port 8080
10.0.0.7 143 :method=CONNECT; :authority=10.0.0.7:8080; baggage=a=b -> port 8080
10.0.0.7 152 :method=CONNECT; :authority=10.0.0.7:8080; forwarded=for=1,by=2 -> port 8080
10.0.0.7 0  -> malformed
10.0.0.7 55 :authority=10.0.0.7:8080 -> malformed
10.0.0.7 43 user-agent=x -> malformed
10.0.0.7 147 :method=CONNECT; :method=CONNECT; :authority=10.0.0.7:8080 -> malformed
10.0.0.7 156 :method=CONNECT; :authority=10.0.0.7:8080; :authority=10.0.0.7:8080 -> malformed
10.0.0.7 166 :method=GET; :scheme=http; :scheme=http; :path=/ -> malformed
10.0.0.7 118 :method=GET; :path=/; :path=/ -> malformed
10.0.0.7 135 :method=CONNECT; x=1; :authority=10.0.0.7:8080 -> malformed
10.0.0.7 135 x=1; :method=CONNECT; :authority=10.0.0.7:8080 -> malformed
10.0.0.7 224 :method=CONNECT; :authority=10.0.0.7:8080; x=1; y=2; :authority=10.0.0.7:8080 -> malformed
10.0.0.7 143 :method=CONNECT; :authority=10.0.0.7:8080; :status=200 -> malformed
10.0.0.7 42 :status=200 -> malformed
10.0.0.7 151 :method=CONNECT; :authority=10.0.0.7:8080; :protocol=websocket -> malformed
10.0.0.7 135 :method=CONNECT; :authority=10.0.0.7:8080; :=1 -> malformed
10.0.0.7 101 :METHOD=CONNECT; :authority=10.0.0.7:8080 -> malformed
10.0.0.7 134 :method=CONNECT; :authority=10.0.0.7:8080; =1 -> malformed
10.0.0.7 133 =; :method=CONNECT; :authority=10.0.0.7:8080 -> malformed
10.0.0.7 135 :method=CONNECT; :authority=10.0.0.7:8080; X=1 -> malformed
10.0.0.7 136 :method=CONNECT; :authority=10.0.0.7:8080; xY=1 -> malformed
10.0.0.7 137 :method=CONNECT; :authority=10.0.0.7:8080; x-Z=1 -> malformed
10.0.0.7 136 :method=CONNECT; :authority=10.0.0.7:8080; x@=1 -> port 8080
10.0.0.7 136 :method=CONNECT; :authority=10.0.0.7:8080; x[=1 -> port 8080
10.0.0.7 140 :method=CONNECT; :authority=10.0.0.7:8080; x_1{}~=1 -> port 8080
10.0.0.7 46 :method=CONNECT -> malformed
10.0.0.7 127 :method=CONNECT; :scheme=http; :path=/ -> malformed
10.0.0.7 144 :method=CONNECT; :authority=10.0.0.7:8080; :scheme=http -> malformed
10.0.0.7 139 :method=CONNECT; :authority=10.0.0.7:8080; :path=/ -> malformed
10.0.0.7 182 :method=CONNECT; :authority=10.0.0.7:8080; :scheme=http; :path=/ -> malformed
10.0.0.7 95 :method=CONNECT; host=10.0.0.7:8080 -> malformed
10.0.0.7 123 :method=GET; :scheme=http; :path=/ -> 405
10.0.0.7 178 :method=GET; :authority=10.0.0.7:8080; :scheme=http; :path=/ -> 405
10.0.0.7 42 :method=GET -> 405
10.0.0.7 97 :method=GET; :authority=10.0.0.7:8080 -> 405
10.0.0.7 94 :method=; :authority=10.0.0.7:8080 -> 405
10.0.0.7 101 :method=connect; :authority=10.0.0.7:8080 -> 405
10.0.0.7 102 :method=CONNECT ; :authority=10.0.0.7:8080 -> 405
10.0.0.7 100 :method=CONNEC; :authority=10.0.0.7:8080 -> 405
10.0.0.7 127 :method=OPTIONS; :scheme=http; :path=* -> 405
10.0.0.7 221 :method=POST; :scheme=http; :authority=10.0.0.7:8080; :path=/; te=trailers -> 405
10.0.0.7 119 :method=GET; x=1; :scheme=http -> malformed
10.0.0.7 76 :method=GET; X=1 -> malformed
10.0.0.7 88 :method=CONNECT; :authority= -> 400
10.0.0.7 96 :method=CONNECT; :authority=10.0.0.7 -> 400
10.0.0.7 97 :method=CONNECT; :authority=10.0.0.7: -> 400
10.0.0.7 98 :method=CONNECT; :authority=10.0.0.7:0 -> 400
10.0.0.7 102 :method=CONNECT; :authority=10.0.0.7:65535 -> port 65535
10.0.0.7 102 :method=CONNECT; :authority=10.0.0.7:65536 -> 400
10.0.0.7 102 :method=CONNECT; :authority=10.0.0.7:00080 -> port 80
10.0.0.7 103 :method=CONNECT; :authority=10.0.0.7:000080 -> 400
10.0.0.7 101 :method=CONNECT; :authority=10.0.0.8:8080 -> 400
10.0.0.7 100 :method=CONNECT; :authority=10.0.0.07:80 -> 400
10.0.0.7 94 :method=CONNECT; :authority=web:80 -> 400
10.0.0.7 108 :method=CONNECT; :authority=[::ffff:10.0.0.7]:80 -> port 80
10.0.0.7 105 :method=CONNECT; :authority=[::ffff:a00:7]:80 -> port 80
10.0.0.7 106 :method=CONNECT; :authority=::ffff:10.0.0.7:80 -> 400
10.0.0.7 96 :method=CONNECT; :authority=[::7]:80 -> 400
10.0.0.7 102 :method=CONNECT; :authority=10.0.0.7:80:80 -> 400
10.0.0.7 100 :method=CONNECT; :authority= 10.0.0.7:80 -> 400
10.0.0.7 104 :method=CONNECT; :authority=user@10.0.0.7:80 -> 400
10.0.0.7 99 :method=CONNECT; :authority=10.0.0.7:8x -> 400
2001:db8::1 105 :method=CONNECT; :authority=[2001:db8::1]:443 -> port 443
2001:db8::1 107 :method=CONNECT; :authority=[2001:DB8:0::1]:443 -> port 443
2001:db8::1 105 :method=CONNECT; :authority=[2001:db8::2]:443 -> 400
2001:db8::1 101 :method=CONNECT; :authority=10.0.0.7:8080 -> 400
10.0.0.7 16384 :method=CONNECT; :authority=10.0.0.7:8080 -> port 8080
10.0.0.7 16385 :method=CONNECT; :authority=10.0.0.7:8080 -> 431
10.0.0.7 16385  -> 431
10.0.0.7 16384  -> malformed
10.0.0.7 18446744073709551615 :method=GET -> 431";

fn header_of(rt: &impl Abort, alloc: Global, name: &str, value: &str) -> Header {
    Header {
        name: Bytes::of(alloc, name.as_bytes()).expect(rt, "memory"),
        value: Bytes::of(alloc, value.as_bytes()).expect(rt, "memory"),
    }
}

/// The size and the headers of a row.
fn list_of(rt: &impl Abort, alloc: Global, words: &str) -> HeaderList {
    let (size, texts) = words.split_once(" ").expect(rt, "headers");
    let mut kept = List::new(alloc);
    for text in texts.split("; ") {
        if let Some((name, value)) = text.split_once("=") {
            let header = header_of(rt, alloc, name, value);
            kept.push(header).expect(rt, "memory");
        }
    }
    HeaderList {
        kept,
        size: size.parse().ok().expect(rt, "a number"),
    }
}

fn tell(rt: &impl Abort, told: &mut String, list: &HeaderList, destination: Ip) {
    match read_request(list, destination) {
        Request::Refused(status) => write!(told, "{status}").expect(rt, "memory"),
        Request::Malformed => told.push_str("malformed").expect(rt, "memory"),
        Request::Connect(target) => write!(told, "port {}", target.port).expect(rt, "memory"),
    }
}

fn assert_row(rt: &impl Abort, alloc: Global, row: &str) {
    let (question, want) = row.split_once(" -> ").expect(rt, "an answer");
    let (destination, words) = question.split_once(" ").expect(rt, "a size");
    let destination = read_ip(destination.as_bytes()).expect(rt, "an address");
    let list = list_of(rt, alloc, words);
    let mut told = String::new(alloc);
    tell(rt, &mut told, &list, destination);
    assert!(rt; told.as_str() == want, "{row}: {told}");
}

#[test]
fn requests_ask_for_what_their_headers_say(rt: HostRuntime) {
    for row in ROWS.split('\n') {
        assert_row(&rt, rt.alloc(), row);
    }
}
