//! The numbers and texts of the faults.

use hb_front::FrontFault;

#[test]
fn faults_have_numbers_and_texts(rt: HostRuntime) {
    let mut told = String::new(rt.alloc());
    for fault in [
        FrontFault::BadSignature,
        FrontFault::BadVersion,
        FrontFault::BadFamily,
        FrontFault::BadLength,
        FrontFault::BadIdentity,
        FrontFault::TooLong,
    ] {
        writeln!(told, "{} {fault}", fault.number()).expect(&rt, "memory");
    }
    let want = "1 not the signature of a PROXY header\n2 not version 2 with command PROXY\n\
        3 neither TCP over IPv4 nor TCP over IPv6\n4 a part passes the end of the header\n5 not one identity\n\
        6 a header longer than 4,096 bytes\n";
    assert!(&rt; told.as_bytes() == want.as_bytes(), "{told}");
}
