//! Judgements, by the resources held.

use crate::verdicts::told;
use hb_held::OwnDoors;
use std::alloc::Global;
use std::process::Abort;

/// Responses with bars between, a peer's identity or `none`, a target and the judgement.
const ROWS: &str = "\
| spiffe://cluster.local/ns/a/sa/c 10.0.0.7:8080 Unknown
U1 | spiffe://cluster.local/ns/a/sa/c 10.0.0.7:8080 Admitted
U1 | none 10.0.0.7:8080 Admitted
U1 | spiffe://cluster.local/ns/a/sa/c 10.0.0.8:8080 Unknown
U1, ALLOW | spiffe://cluster.local/ns/a/sa/c 10.0.0.7:8080 Admitted
U1, ALLOW | spiffe://cluster.local/ns/a/sa/d 10.0.0.7:8080 Denied
U1, ALLOW | none 10.0.0.7:8080 Denied
U1, NEVER | none 10.0.0.7:8080 Denied
U1, ALLOW, DENY | spiffe://cluster.local/ns/a/sa/c 10.0.0.7:8080 Denied
U1, ALLOW, GONE | spiffe://cluster.local/ns/a/sa/c 10.0.0.7:8080 Unknown";

fn assert_row(rt: &impl Abort, alloc: Global, row: &str) {
    let (responses, words) = row.split_once("| ").unwrap_or(("", row));
    let (identity, words) = words.split_once(" ").unwrap_or((words, ""));
    let (target, want) = words.split_once(" ").unwrap_or((words, ""));
    let told = told(
        rt,
        alloc,
        OwnDoors::none(),
        responses,
        "judge",
        identity,
        target,
    );
    assert!(rt; told == want, "{row}: {told}");
}

#[test]
fn each_row_is_judged_as_written(rt: HostRuntime) {
    for row in ROWS.split('\n') {
        assert_row(&rt, rt.alloc(), row);
    }
}
