//! Values under numbers.

use hb_map::ById;

#[test]
fn what_is_put_under_a_number_is_found_there(rt: HostRuntime) {
    let mut map: ById<u32, u64> = ById::new(rt.alloc());
    assert!(rt; map.put(7, 70u64).is_ok());
    assert!(rt; map.put(3, 30).is_ok());
    assert!(rt; map.put(7, 71).is_ok());
    if let Some(item) = map.at(3) {
        *item = 31;
    }
    assert!(rt; map.len() == 2);
    assert!(rt; map.get(3).copied() == Some(31));
    assert!(rt; map.first_from(4) == Some(7));
    assert!(rt; map.remove(7) == Some(71));
    assert!(rt; map.first_from(4) == None);
}

/// Numbers of which the low 32 bits are equal, and the greatest.
#[test]
fn numbers_of_64_bits_are_told_apart(rt: HostRuntime) {
    let mut map: ById<u64, u64> = ById::new(rt.alloc());
    assert!(rt; map.put(0x1_0000_0003, 30).is_ok());
    assert!(rt; map.put(u64::MAX, 40).is_ok());
    assert!(rt; map.put(3, 10).is_ok());
    assert!(rt; map.put(0x1_0000_0003, 31).is_ok());
    if let Some(item) = map.at(u64::MAX) {
        *item = 41;
    }
    assert!(rt; map.len() == 3);
    assert!(rt; map.get(3).copied() == Some(10));
    assert!(rt; map.get(0x1_0000_0003).copied() == Some(31));
    assert!(rt; map.get(0x2_0000_0003).is_none());
    assert!(rt; map.first_from(4) == Some(0x1_0000_0003));
    assert!(rt; map.first_from(0x1_0000_0004) == Some(u64::MAX));
    assert!(rt; map.remove(u64::MAX) == Some(41));
    assert!(rt; map.first_from(0x1_0000_0004) == None);
    assert!(rt; map.remove(3) == Some(10));
    assert!(rt; map.first_from(0) == Some(0x1_0000_0003));
}
