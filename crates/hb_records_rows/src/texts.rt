//! The texts of addresses, targets and identities.

use crate::tables::{bytes_of, put, put_if, tell, text_of};
use hb_base::{
    Cidr, Identity, Ip, Target, Text, put_ip, put_target, read_identity, read_ip, read_target,
};
use std::process::Abort;

/// Octets, and the address that they are read as, in hexadecimal digits.
pub const OCTETS: &str = "\
0a 00 00 07; 0a000007
20 01 0d b8 00 00 00 00 00 00 00 00 00 00 00 01; 20010db8000000000000000000000001
00 00 00 00 00 00 00 00 00 00 ff ff 0a 00 00 07; 0a000007
00 00 00 00 00 00 00 00 00 01 ff ff 0a 00 00 07; 00000000000000000001ffff0a000007
00 00 00; none
00 00 00 00 00; none
00 00 00 00 00 00 00 00 00 00 ff ff 0a 00 00; none
; none";

/// Texts, and the target that each is read as, as it is written too.
pub const TARGETS: &str = "\
10.0.0.7:8080; 0a000007 8080 10.0.0.7:8080
10.0.0.7:1; 0a000007 1 10.0.0.7:1
10.0.0.7:65535; 0a000007 65535 10.0.0.7:65535
10.0.0.7:00080; 0a000007 80 10.0.0.7:80
[2001:db8::1]:80; 20010db8000000000000000000000001 80 [2001:db8::1]:80
[2001:DB8:0:0::1]:00443; 20010db8000000000000000000000001 443 [2001:db8::1]:443
[::ffff:10.0.0.7]:80; 0a000007 80 10.0.0.7:80
[64:ff9b::10.0.0.7]:65535; 0064ff9b00000000000000000a000007 65535 [64:ff9b::a00:7]:65535
[::]:1; 00000000000000000000000000000000 1 [::]:1
10.0.0.7; no port
; no port
[; no port
[]; no port
[2001:db8::1]; no port
[2001:db8::1:80; no port
[2001:db8::1]80; no port
[2001:db8::1] :80; no port
[2001:db8::1]]:80; no port
[[2001:db8::1]]:80; no port
a:80; not an address
a:0; not an address
:80; not an address
10.0.0.7:80:80; not an address
10.0.0.07:80; not an address
2001:db8::1:80; not an address
::1:80; not an address
[]:80; not an address
[]:; not an address
[10.0.0.7]:80; not an address
[1::2::3]:80; not an address
[::1%0]:80; not an address
[ ::1]:80; not an address
10.0.0.7:0; not a port
10.0.0.7:65536; not a port
10.0.0.7:000080; not a port
10.0.0.7:; not a port
10.0.0.7:8o; not a port
[::1]:; not a port
[::1]:0; not a port
[::1]:65536; not a port
[::1]:000080; not a port
[::1]:+80; not a port
[::1]:80:80; not a port
[::1]:80]; not a port";

/// Texts, and the names of the identity that each is read as.
pub const IDENTITIES: &str = "\
spiffe://cluster.local/ns/a/sa/c; cluster.local a c
spiffe://TD/ns/a_0/sa/c-x; TD a_0 c-x
spiffe://td/ns//sa/b; none
spiffe:///ns/a/sa/b; none
spiffe://td/ns/a/sa/; none
spiffe://td/ns/a/sa/b/; none
spiffe://td/ns/a/sa/b c; none
spiffe://td/ns/a%/sa/b; none
spiffe://td/sa/a/ns/b; none
spiffe://td/ns/a/sa; none
SPIFFE://td/ns/a/sa/b; none
td/ns/a/sa/b; none
; none";

/// Texts, and how the principal of `spiffe://td/ns/a/sa/b` matches each.
pub const PRINCIPALS: &str = "\
td/ns/a/sa/b; equals starts ends
; starts ends
td/ns/a; starts
/sa/b; ends
ns/a/sa/b; ends
td/ns/b;
td/ns/a/sa/b/;
xtd/ns/a/sa/b;";

fn tell_ip(told: &mut String, ip: Option<Ip>) {
    match ip {
        Some(Ip::V4(n)) => {
            let _ = write!(told, "{n:08x} ");
        }
        Some(Ip::V6(n)) => {
            let _ = write!(told, "{n:032x} ");
        }
        None => put(told, "none"),
    }
}

fn tell_written(told: &mut String, bytes: &[u8]) {
    put(told, std::str::from_utf8(bytes).unwrap_or("no text"));
}

/// The address of a text, and what is written of it.
pub fn tell_ip_text(rt: &(impl Abort + AllocGlobal), told: &mut String, text: &str) {
    let ip = read_ip(text.as_bytes());
    tell_ip(told, ip);
    if let Some(ip) = ip {
        let mut written = Vec::new(rt.alloc());
        put_ip(rt.alloc(), ip, &mut written).expect(rt, "memory");
        tell_written(told, &written);
    }
}

/// A sign for each address, whether the prefix of these octets and this length covers it.
fn tell_covered(rt: &impl Abort, told: &mut String, octets: &[u8], length: u32, addresses: &str) {
    let Some(prefix) = Cidr::new(octets, length) else {
        return put(told, "none ");
    };
    for address in addresses.split_whitespace() {
        let ip = read_ip(address.as_bytes()).expect(rt, "an address");
        put(told, if prefix.covers(ip) { "+" } else { "-" });
    }
    put(told, " ");
}

/// The prefixes of octets and of several lengths, and the addresses that each covers.
pub fn tell_prefixes(rt: &(impl Abort + AllocGlobal), told: &mut String, row: &str) {
    let (octets, rest) = row.split_once('/').expect(rt, "octets");
    let (lengths, addresses) = rest.split_once('/').expect(rt, "lengths");
    let octets = bytes_of(rt, octets);
    for length in lengths.split_whitespace() {
        let length = length.parse::<u32>().expect(rt, "a number");
        tell_covered(rt, told, &octets, length, addresses);
    }
}

pub fn tell_octets(rt: &(impl Abort + AllocGlobal), told: &mut String, words: &str) {
    tell_ip(told, Ip::from_octets(&bytes_of(rt, words)));
}

fn tell_target(rt: &(impl Abort + AllocGlobal), told: &mut String, target: Target) {
    tell_ip(told, Some(target.ip));
    tell(told, &target.port, " ");
    let mut written = Vec::new(rt.alloc());
    put_target(rt.alloc(), target, &mut written).expect(rt, "memory");
    tell_written(told, &written);
}

/// The target of a text, and what is written of it.
pub fn tell_target_text(rt: &(impl Abort + AllocGlobal), told: &mut String, text: &str) {
    match read_target(text.as_bytes()) {
        Ok(target) => tell_target(rt, told, target),
        Err(fault) => tell(told, &fault, ""),
    }
}

fn tell_name(told: &mut String, name: &Text) {
    put(told, text_of(name));
    put(told, " ");
}

pub fn tell_identity(told: &mut String, identity: &Option<Identity>) {
    let Some(identity) = identity else {
        return put(told, "none");
    };
    tell_name(told, &identity.trust_domain);
    tell_name(told, &identity.namespace);
    tell_name(told, &identity.service_account);
}

fn identity_of(rt: &(impl Abort + AllocGlobal), text: &str) -> Option<Identity> {
    read_identity(rt.alloc(), text.as_bytes()).expect(rt, "memory")
}

pub fn tell_identity_text(rt: &(impl Abort + AllocGlobal), told: &mut String, text: &str) {
    tell_identity(told, &identity_of(rt, text));
}

pub fn tell_principal(rt: &(impl Abort + AllocGlobal), told: &mut String, text: &str) {
    let identity = identity_of(rt, "spiffe://td/ns/a/sa/b").expect(rt, "an identity");
    let text = text.as_bytes();
    put_if(told, identity.principal_equals(text), "equals ");
    put_if(told, identity.principal_starts_with(text), "starts ");
    put_if(told, identity.principal_ends_with(text), "ends ");
}
