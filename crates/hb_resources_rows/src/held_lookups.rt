//! What look-ups find.

use crate::held_responses::{apply_all, kind_of, name_of, tell_text, word_of};
use crate::told::{nothing_held, put, same};
use hb_base::{Ip, Text};
use hb_held::{Found, Held, HeldRecord, HeldRow};
use hb_records::{AddressRecord, Authorization};
use std::alloc::Global;
use std::process::Abort;

/// Responses with bars between; and a question with its answer.
const ROWS: &str = "\
# Two workloads of one address: the one of the smaller name, whichever came first.
a b:w,net=net,ip=0a000007 a:w,net=net,ip=0a000007 => workload 10.0.0.7 = a
a a:w,net=net,ip=0a000007 b:w,net=net,ip=0a000007 => workload 10.0.0.7 = a
a b:w,net=net,ip=0a000007 a:w,net=net,ip=0a000007 | a ~a => workload 10.0.0.7 = b
a b:w,net=net,ip=0a000007 a:w,net=net,ip=0a000007 | a a:w,net=net,ip=0a000008 => workload 10.0.0.7 = b
a aa:w,net=net,ip=0a000007 a:w,net=net,ip=0a000007 B:w,net=net,ip=0a000007 => workload 10.0.0.7 = B
a b:w,net=net,ip=0a000001,ip=0a000007 => workload 10.0.0.7 = b
a b:w,net=net,ip=0a000001 => workload 10.0.0.7 = none
=> workload 10.0.0.7 = none
# Of another network, of no network, of another network first; a service; a policy of the name.
a b:w,net=other,ip=0a000007 => workload 10.0.0.7 = none
a b:w,ip=0a000007 => workload 10.0.0.7 = none
a a:w,net=other,ip=0a000007 b:w,net=net,ip=0a000007 => workload 10.0.0.7 = b
a a:s,at=net/0a000007 b:w,net=net,ip=0a000007 => workload 10.0.0.7 = b
z a:p | a b:w,net=net,ip=0a000007 => workload 10.0.0.7 = b
# An IPv6 address, and one that an IPv4 address is mapped into.
a b:w,net=net,ip=20010db8000000000000000000000001 => workload 2001:db8::1 = b
a b:w,net=net,ip=00000000000000000000ffff0a000007 => workload 10.0.0.7 = b
a b:w,net=net,ip=0000000000000000000000000a000007 => workload 10.0.0.7 = none
# Known: the least is taken first, and its node is looked at then.
a b:w,net=net,ip=0a000007,node=n1 => known 10.0.0.7 = b
a b:w,net=net,ip=0a000007,node=n2 => known 10.0.0.7 = none
a b:w,net=net,ip=0a000007,node=n => known 10.0.0.7 = none
a b:w,net=net,ip=0a000007 => known 10.0.0.7 = none
a b:w,net=net,ip=0a000007,node=n1 a:w,net=net,ip=0a000007,node=n2 => known 10.0.0.7 = none
a b:w,net=net,ip=0a000007,node=n2 a:w,net=net,ip=0a000007,node=n1 => known 10.0.0.7 = a
a b:w,net=net,ip=0a000007,node=n1 a:w,net=other,ip=0a000007,node=n2 => known 10.0.0.7 = b
a b:w,net=other,ip=0a000007,node=n1 => known 10.0.0.7 = none
# Services with several addresses: network and address of one of them.
a b:s,at=net/0a000001,at=net/0a000007 => service 10.0.0.7 = b
a b:s,at=net/0a000001,at=other/0a000007 => service 10.0.0.7 = none
a b:s,at=other/0a000007,at=net/0a000001 => service 10.0.0.7 = none
a b:s,at=net/0a000007 a:s,at=net/0a000001,at=net/0a000007 => service 10.0.0.7 = a
a b:s,at=net/0a000007 a:s,at=other/0a000007 => service 10.0.0.7 = b
a b:w,net=net,ip=0a000007 => service 10.0.0.7 = none
a a:w,net=net,ip=0a000007 b:s,at=net/0a000007 => service 10.0.0.7 = b
# Endpoints: a key is the whole of namespace, slash and hostname.
a w2:w,net=net,serves=a/b w1:w,net=net,serves=a/b => endpoints a b = w1 w2
a w1:w,net=net,serves=a/bc w2:w,net=net,serves=a/b w3:w,net=net,serves=a/ => endpoints a b = w2
a w1:w,net=net,serves=a/bc w2:w,net=net,serves=a/b => endpoints a bc = w1
a w1:w,net=net,serves=a/b/c => endpoints a b/c = w1
a w1:w,net=net,serves=a/b/c => endpoints a/b c = w1
a w1:w,net=net,serves=a/b/c => endpoints a b = none
a w1:w,net=net,serves=ab w2:w,net=net,serves=a//b => endpoints a b = none
a w1:w,net=net,serves=aa/b w2:w,net=net,serves=/b => endpoints a b = none
a w1:w,net=net,serves=/b => endpoints - b = w1
a w1:w,net=net,serves=a/ => endpoints a - = w1
a w1:w,net=net,serves=x/y,serves=a/b,serves=z/b => endpoints a b = w1
a w1:w,net=other,serves=a/b w2:w,serves=a/b => endpoints a b = none
a w1:w,net=net,serves=a/b w0:s,ns=a,at=net/0a000007 | a ~w1 => endpoints a b = none
# Workloads that serve a service come, go, move, become services; a key that stands twice; keys that are swapped.
a w1:w,net=net,serves=a/b w2:w,net=net,serves=a/b | a ~w1 => endpoints a b = w2
a w1:w,net=net,serves=a/b w2:w,net=net,serves=a/b | a ~w1 ~w2 => endpoints a b = none
a w1:w,net=net,serves=a/b w2:w,net=net,serves=a/b | a ~w1 | a w1:w,net=net,serves=a/b => endpoints a b = w1 w2
a w1:w,net=net,serves=a/b w2:w,net=net,serves=a/b | a w1:w,net=net => endpoints a b = w2
a w1:w,net=net,serves=a/b | a w1:w,net=net,serves=a/c => endpoints a c = w1
a w1:w,net=net,serves=a/b | a w1:s,at=net/0a000007 => endpoints a b = none
a w1:w,net=net,serves=a/b,serves=a/c | a w1:w,net=net,serves=a/c => endpoints a b = none
a w1:w,net=net,serves=a/b,serves=a/c | a w1:w,net=net,serves=a/c => endpoints a c = w1
a w1:w,net=net,serves=a/b,serves=a/b => endpoints a b = w1
a w1:w,net=net,serves=b/a w2:w,net=net,serves=a/b => endpoints a b = w2
a w1:w,net=net,serves=a/b w1:w,net=other,serves=a/b => endpoints a b = none
a w1:w,net=other,serves=a/b | a w1:w,net=net,serves=a/b => endpoints a b = w1
a w1:w,net=net,serves=a/b | a w1:x,hex=0b => endpoints a b = w1
a w3:w,net=net,serves=a/b w1:w,net=net,serves=a/b,ip=0a000007 w2:w,net=other,serves=a/b => endpoints a b = w1 w3
# Policies for the workload of an address: of the three scopes, by name, each once.
a w:w,net=net,ip=0a000007,ns=a | z g:p,name=x,ns=c n:p,name=y,ns=a,namespace m:p,name=v,ns=b,namespace => policies 10.0.0.7 = c/x a/y
a w:w,net=net,ip=0a000007,asks=a/p | z r1:p,name=p,ns=a,selector r2:p,name=q,ns=a,selector => policies 10.0.0.7 = a/p
a w:w,net=net,ip=0a000007,asks=a/p,asks=a/p | z r1:p,name=p,ns=a,selector => policies 10.0.0.7 = a/p
a w:w,net=net,ip=0a000007,asks=a/p,asks=a/q | z r1:p,name=p,ns=a,selector => policies 10.0.0.7 = a/p
a w:w,net=net,ip=0a000007,asks=a/p | z a/p:p,name=x,ns=a,selector => policies 10.0.0.7 = none
a w:w,net=net,ip=0a000007,ns=a,asks=a/p | z r1:p,name=p,ns=a,namespace => policies 10.0.0.7 = a/p
a w:w,net=net,ip=0a000007,ns=b,asks=a/p | z r1:p,name=p,ns=a,namespace => policies 10.0.0.7 = none
a w:w,net=net,ip=0a000007,asks=a/pp | z r1:p,name=p,ns=a,selector => policies 10.0.0.7 = none
a w:w,net=net,ip=0a000007,ns=a | z r1:p,name=p,ns=a,selector => policies 10.0.0.7 = none
a w:w,net=net,ip=0a000007,asks=a/p | z b:p,name=p,ns=a,selector a:p,name=p,ns=a,selector,rules=1 => policies 10.0.0.7 = a/p+1 a/p
a w:w,net=net,ip=0a000007 | z b:p,name=2 a:p,name=1 | z ~a => policies 10.0.0.7 = -/2
# Of records that share an address one goes, moves, becomes a service; of two addresses one goes.
a a:s,at=net/0a000007 b:s,at=net/0a000007 | a ~a => service 10.0.0.7 = b
a a:s,at=net/0a000007 b:s,at=net/0a000007 | a a:s,at=net/0a000008 => service 10.0.0.7 = b
a a:s,at=net/0a000007 b:s,at=net/0a000007 | a a:s,at=net/0a000008 => service 10.0.0.8 = a
a a:w,net=net,ip=0a000007 b:w,net=net,ip=0a000007 | a ~a ~b => workload 10.0.0.7 = none
a a:w,net=net,ip=0a000007 b:w,net=net,ip=0a000007 | a ~a | a a:w,net=net,ip=0a000007 => workload 10.0.0.7 = a
a a:w,net=net,ip=0a000007 b:w,net=net,ip=0a000007 | a ~a a:w,net=net,ip=0a000008 => workload 10.0.0.7 = b
a a:w,net=net,ip=0a000007,ip=0a000008 | a a:w,net=net,ip=0a000008 => workload 10.0.0.7 = none
a a:w,net=net,ip=0a000007,ip=0a000008 | a a:w,net=net,ip=0a000008 => workload 10.0.0.8 = a
a a:w,net=net,ip=0a000007,ip=0a000007 | a a:w,net=net,ip=0a000008 => workload 10.0.0.7 = none
a a:w,net=net,ip=0a000007 | a a:w,net=net,ip=0a000008,ip=0a000007,ip=0a000008 => workload 10.0.0.7 = a
a a:w,net=net,ip=0a000007 | a a:s,at=net/0a000007 => workload 10.0.0.7 = none
a a:w,net=net,ip=0a000007 | a a:s,at=net/0a000007 => service 10.0.0.7 = a
a a:w,net=net,ip=0000000000000000000000000a000007 b:w,net=net,ip=0a000007 => workload 10.0.0.7 = b
a a:w,net=other,ip=0a000007 b:w,net=net,ip=0a000007 | a a:w,net=net,ip=0a000007 => workload 10.0.0.7 = a
a a:w,net=net,ip=0a000007 | a a:x,hex=0b => workload 10.0.0.7 = a
# Policies that come before the workload and after it, whose namespace or scope is replaced.
z r:p,name=p,ns=a,selector | a w:w,net=net,ip=0a000007,asks=a/p => policies 10.0.0.7 = a/p
a w:w,net=net,ip=0a000007,asks=a/p | z r:p,name=p,ns=a,selector | z r:p,name=p,ns=b,selector => policies 10.0.0.7 = none
a w:w,net=net,ip=0a000007,ns=a | z r:p,name=p,ns=a,namespace | z r:p,name=p,ns=b,namespace => policies 10.0.0.7 = none
a w:w,net=net,ip=0a000007,ns=a | z r:p,name=p,ns=b,namespace | z r:p,name=p,ns=b => policies 10.0.0.7 = b/p
a w:w,net=net,ip=0a000007,ns=a | z r:p,name=p,ns=a,namespace | a w:w,net=net,ip=0a000007,ns=b => policies 10.0.0.7 = none
a w1:w,net=net,serves=a/b w2:w,net=net,serves=a/b | a w1:w,net=net,serves=a/c => endpoints a b = w2
# Touched: the workload at the address, before or after, whatever its node.
=> touched 10.0.0.7 = no
a u:w,net=net,ip=0a000007 => touched 10.0.0.7 = yes
a u:w,net=net,ip=0a000007,node=n2 v:w,net=net,ip=0a000008 | a u:w,net=net,ip=0a000007,node=n2 => touched 10.0.0.7 = yes
a u:w,net=net,ip=0a000007,node=n1 v:w,net=net,ip=0a000008 | a u:w,net=net,ip=0a000007 => touched 10.0.0.8 = no
a u:w,net=net,ip=0a000007 | a u:w,net=net,ip=0a000008 => touched 10.0.0.7 = yes
a u:w,net=net,ip=0a000007 | a u:w,net=net,ip=0a000008 => touched 10.0.0.8 = yes
a u:w,net=net,ip=0a000007 | a ~u => touched 10.0.0.7 = yes
a u:w,net=net,ip=0a000007 | a ~v => touched 10.0.0.7 = no
a u:w,net=net,ip=0a000007 | a ~u u:w,net=net,ip=0a000007 => touched 10.0.0.7 = yes
a u:w,net=net,ip=0a000007 | a u:x,hex=0b => touched 10.0.0.7 = no
a b:w,net=net,ip=0a000007 | a a:w,net=net,ip=0a000007 => touched 10.0.0.7 = yes
a a:w,net=net,ip=0a000007 | a b:w,net=net,ip=0a000007 => touched 10.0.0.7 = no
a a:w,net=net,ip=0a000007 b:w,net=net,ip=0a000007 | a ~b => touched 10.0.0.7 = no
a a:w,net=net,ip=0a000007 b:w,net=net,ip=0a000007 | a ~a => touched 10.0.0.7 = yes
a a:w,net=net,ip=0a000007 b:w,net=net,ip=0a000007 | a a:s,at=net/0a000007 => touched 10.0.0.7 = yes
a a:w,net=net,ip=0a000007 | a ~a | a b:w,net=net,ip=0a000008 => touched 10.0.0.7 = no
# A policy for the workload known there, before or after.
a u:w,net=net,ip=0a000007,node=n1,ns=a | z p:p,name=p,ns=a,namespace => touched 10.0.0.7 = yes
a u:w,net=net,ip=0a000007,node=n2,ns=a | z p:p,name=p,ns=a,namespace => touched 10.0.0.7 = no
a u:w,net=net,ip=0a000007,node=n1,ns=a | z p:p,name=p,ns=b,namespace => touched 10.0.0.7 = no
a u:w,net=net,ip=0a000007,node=n1,ns=a | z p:p,name=p,ns=a,namespace | z p:p,name=p,ns=b,namespace => touched 10.0.0.7 = yes
a u:w,net=net,ip=0a000007,node=n1,ns=a | z p:p,name=p,ns=a,namespace | z ~p => touched 10.0.0.7 = yes
a u:w,net=net,ip=0a000007,node=n1,ns=a | z p:p,name=p,ns=a,namespace q:p,name=q,ns=b,namespace | z ~q => touched 10.0.0.7 = no
a u:w,net=net,ip=0a000007,node=n1,asks=a/p | z p:p,name=p,ns=a,selector => touched 10.0.0.7 = yes
a u:w,net=net,ip=0a000007,node=n1,asks=a/p | z p:p,name=q,ns=a,selector => touched 10.0.0.7 = no
a u:w,net=net,ip=0a000007,node=n1 | z p:p,name=p => touched 10.0.0.7 = yes
z p:p,name=p | a u:w,net=net,ip=0a000007,node=n1 | a v:w,net=net,ip=0a000008,node=n1 => touched 10.0.0.7 = no
# Versions of a kind by name; places by kind and name.
a b@2:w a@1:s B@3:w | z a@9:p => versions a = B@3 a@1 b@2
a b@2:w | z b@8:p a@9:p => versions z = a@9 b@8
z a@9:p => versions a = none
a b@2:w | a b@4:w => versions a = b@4
z p@7:p | a b@2:w a@1:s => nth 0 = a.a@1 service
z p@7:p | a b@2:w a@1:s => nth 1 = a.b@2 workload
z p@7:p | a b@2:w a@1:s => nth 2 = z.p@7 policy
z p@7:p | a b@2:w a@1:s => nth 3 = none
=> nth 0 = none
z p@7:p | a b@2:w a@1:s => count - = 3
=> count - = 0";

fn tell_found(rt: &impl Abort, told: &mut String, found: Option<Found<'_>>) {
    if let Some(found) = found {
        put(rt, told, " ");
        tell_text(rt, told, found.name);
    }
}

fn tell_policy(rt: &impl Abort, told: &mut String, policy: &Authorization) {
    put(rt, told, " ");
    tell_text(rt, told, &policy.namespace);
    put(rt, told, "/");
    tell_text(rt, told, &policy.name);
    if !policy.rules.is_empty() {
        write!(told, "+{}", policy.rules.len()).expect(rt, "memory");
    }
}

fn tell_policies(rt: &impl Abort, told: &mut String, held: &Held, ip: Ip) {
    let found = held.workload_at(ip).expect(rt, "a workload");
    let mut policies = held.policies_for(found.workload);
    while let Some(policy) = policies.next() {
        tell_policy(rt, told, policy);
    }
}

fn tell_endpoints(rt: &impl Abort, told: &mut String, held: &Held, namespace: &Text, host: &Text) {
    let mut endpoints = held.endpoints(namespace, host);
    while let Some(found) = endpoints.next() {
        tell_found(rt, told, Some(found));
    }
}

fn tell_versions(rt: &impl Abort, alloc: Global, told: &mut String, held: &Held, kind: &str) {
    let versions = held.versions(alloc, kind_of(kind));
    for one in versions.expect(rt, "memory").as_slice() {
        put(rt, told, " ");
        tell_text(rt, told, &one.name);
        put(rt, told, "@");
        tell_text(rt, told, &one.version);
    }
}

fn tell_row(rt: &impl Abort, told: &mut String, row: &HeldRow<'_>) {
    put(rt, told, " ");
    put(rt, told, word_of(row.kind));
    put(rt, told, ".");
    tell_text(rt, told, row.name);
    put(rt, told, "@");
    tell_text(rt, told, row.version);
    match &row.content {
        HeldRecord::Address(AddressRecord::Workload(_)) => put(rt, told, " workload"),
        HeldRecord::Address(AddressRecord::Service(_)) => put(rt, told, " service"),
        HeldRecord::Policy(_) => put(rt, told, " policy"),
    }
}

fn tell_nth(rt: &impl Abort, told: &mut String, held: &Held, place: &str) {
    let place = place.parse::<usize>().ok().expect(rt, "a number");
    if let Some(row) = held.nth(place) {
        tell_row(rt, told, &row);
    }
}

fn tell_service(rt: &impl Abort, told: &mut String, held: &Held, ip: Ip) {
    if let Some(found) = held.service_at(ip) {
        put(rt, told, " ");
        tell_text(rt, told, found.name);
    }
}

fn tell_touched(rt: &impl Abort, told: &mut String, held: &Held, ip: Ip) {
    if held.is_settled() {
        let touched = held.touched(ip);
        put(rt, told, if touched { " yes" } else { " no" });
    }
}

fn ip_of(rt: &impl Abort, text: &str) -> Ip {
    hb_base::read_ip(text.as_bytes()).expect(rt, "an address")
}

fn tell_answer(rt: &impl Abort, alloc: Global, told: &mut String, held: &Held, question: &str) {
    let (what, words) = question.split_once(" ").unwrap_or((question, ""));
    match what {
        "workload" => tell_found(rt, told, held.workload_at(ip_of(rt, words))),
        "known" => tell_found(rt, told, held.known(ip_of(rt, words))),
        "service" => tell_service(rt, told, held, ip_of(rt, words)),
        "touched" => tell_touched(rt, told, held, ip_of(rt, words)),
        "policies" => tell_policies(rt, told, held, ip_of(rt, words)),
        "endpoints" => {
            let (namespace, host) = words.split_once(" ").unwrap_or((words, ""));
            tell_endpoints(
                rt,
                told,
                held,
                &name_of(rt, alloc, namespace),
                &name_of(rt, alloc, host),
            );
        }
        "versions" => tell_versions(rt, alloc, told, held, words),
        "nth" => tell_nth(rt, told, held, words),
        _ => write!(told, " {}", held.count()).expect(rt, "memory"),
    }
}

/// What is answered after responses; ` none` where nothing is told.
fn answer(
    rt: &impl Abort,
    alloc: Global,
    held: &mut Held,
    responses: &str,
    question: &str,
) -> String {
    let mut told = String::new(alloc);
    apply_all(rt, alloc, held, responses, &mut told);
    told.clear();
    tell_answer(rt, alloc, &mut told, held, question);
    if told.is_empty() {
        put(rt, &mut told, " none");
    }
    told
}

fn assert_row(rt: &impl Abort, alloc: Global, row: &str) {
    let (responses, asked) = row.split_once("=> ").unwrap_or((row, ""));
    let (question, want) = asked.split_once(" =").unwrap_or((asked, ""));
    let mut held = nothing_held(rt, alloc);
    let told = answer(rt, alloc, &mut held, responses, question);
    same(rt, row, told.as_str(), want);
}

#[test]
fn look_ups_find_what_is_held(rt: HostRuntime) {
    for row in ROWS.lines() {
        if !row.starts_with('#') {
            assert_row(&rt, rt.alloc(), row);
        }
    }
}
