//! ICMP, DONT-FRAGMENT and DATA.

use crate::fixture::same;
use crate::types::attributes::{reads, refuses, writes};
use crate::types::first_id;
use turn_stun::attribute::typed::AttributeFromRaw;
use turn_types::attribute::{Data, DontFragment, Icmp};

/// Malformed values of ICMP: nothing, a byte short, a byte long.
static NO_ICMP: [&[u8]; 3] = [&[], &[0, 0, 3, 4, 0, 0, 5], &[0, 0, 3, 4, 0, 0, 5, 0x78, 0]];

#[test]
fn icmp(rt: HostRuntime) {
    let report = Icmp::new(3, 4, 1400);
    refuses::<Icmp>(&rt, &NO_ICMP);
    writes(
        &rt,
        rt.alloc(),
        &report,
        0x8004,
        &[0, 0, 3, 4, 0, 0, 5, 0x78],
    );
    reads(&rt, &[9, 9, 3, 4, 0, 0, 5, 0x78], first_id(), report);
}

#[test]
fn dont_fragment(rt: HostRuntime) {
    reads(&rt, &[], first_id(), DontFragment);
    refuses::<DontFragment>(&rt, &[&[0], &[0, 0, 0, 0]]);
    writes(&rt, rt.alloc(), &DontFragment, 0x001a, &[]);
}

#[test]
fn data(rt: HostRuntime) {
    let carried = Data::from_value(b"hello", first_id()).expect(&rt, "data");
    same(&rt, carried.data(), b"hello".as_slice());
    writes(&rt, rt.alloc(), &Data::new(b"hello"), 0x0013, b"hello");
}
