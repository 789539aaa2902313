//! Transaction IDs of worked seeds.

use crate::fixture::same;
use std::alloc::Global;
use std::process::Abort;
use turn_agent::number_source::NumberSource;
use turn_stun::transaction::TransactionId;

// RFC 8439, appendix A.1, test vectors 1 and 2: blocks 0 and 1 of the key zero.
static ZERO_SEED_IDS: [&str; 6] = [
    "76b8e0ada0f13d90405d6ae5",
    "5386bd28bdd219b8a08ded1a",
    "a836efcc8b770dc7da41597c",
    "5157488d7724e03fb8d84a37",
    "6a43b8f41518a11cc387b669",
    "b2ee65869f07e7be5551387a",
];

/// The ID is printed as this text.
fn is_printed(rt: &impl Abort, alloc: Global, id: TransactionId, want: &str) {
    let text = format!(in alloc; "{id:?}").expect(rt, "memory");
    same(rt, text.as_str(), want);
}

/// The source returns this ID, first as its candidate.
fn gives(rt: &impl Abort, alloc: Global, source: &mut NumberSource, want: &str) {
    let candidate = source.candidate();
    let drawn = source.draw();
    same(rt, candidate, drawn);
    is_printed(rt, alloc, drawn, want);
}

#[test]
fn ids_are_the_key_stream(rt: HostRuntime) {
    let mut source = NumberSource::from_seed([0; 32]);
    for want in &ZERO_SEED_IDS {
        gives(&rt, rt.alloc(), &mut source, *want);
    }
}

/// The source after six IDs of a seed.
fn seventh_of(seed: [u8; 32]) -> NumberSource {
    let mut source = NumberSource::from_seed(seed);
    for _ in 0..6 {
        let _before = source.draw();
    }
    source
}

#[test]
fn a_source_prints_no_seed(rt: HostRuntime) {
    let source = seventh_of([0; 32]);
    let shown = format!(in rt.alloc(); "{source:?}").expect(&rt, "memory");
    same(&rt, shown.as_str(), "NumberSource { place: 18, .. }");
}

// RFC 8439, appendix A.1, test vector 3: block 1 of the key that ends in 01.
#[test]
fn ids_cross_blocks_of_another_seed(rt: HostRuntime) {
    let mut seed = [0; 32];
    seed[31] = 1;
    let mut source = seventh_of(seed);
    is_printed(&rt, rt.alloc(), source.draw(), "9b9d828db1ced4dd832025e8");
}

#[test]
fn successors_count_up(rt: HostRuntime) {
    let greatest = TransactionId::from_bytes([0xff; 12]);
    same(
        &rt,
        greatest.successor(),
        TransactionId::from_bytes([0; 12]),
    );
    let first = NumberSource::from_seed([0; 32]).candidate();
    is_printed(
        &rt,
        rt.alloc(),
        first.successor(),
        "76b8e0ada0f13d90405d6ae6",
    );
}
