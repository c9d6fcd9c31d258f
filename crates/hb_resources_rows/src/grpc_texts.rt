//! The texts of the faults.

use hb_grpc::GrpcFault;

#[test]
fn faults_are_told_by_their_texts(rt: HostRuntime) {
    let mut told = String::new(rt.alloc());
    for fault in [
        GrpcFault::Compressed { flag: 1 },
        GrpcFault::TooLong { length: 67_108_865 },
    ] {
        writeln!(told, "{fault}").expect(&rt, "memory");
    }
    let want = "a message is compressed: flag 1\na message is too long: 67108865 bytes\n";
    assert!(&rt; told.as_bytes() == want.as_bytes(), "{told}");
}
