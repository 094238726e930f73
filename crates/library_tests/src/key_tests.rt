//! Tests of the key under which texts are hashed.
use std::hash::BuildHasher;
use tap_base::{HashKey, TextBytes};

// Returns the hash of a word under a key.
fn hash_of(key: HashKey) -> u64 {
    key.hash_one(TextBytes(b"budget"))
}

#[test]
fn each_drawn_key_hashes_in_its_own_way(rt: HostRuntime) {
    let fixed = hash_of(HashKey::fixed());
    let one = hash_of(HashKey::draw(&rt));
    let other = hash_of(HashKey::draw(&rt));
    assert!(rt; fixed == hash_of(HashKey::fixed()));
    assert!(rt; one != fixed);
    assert!(rt; other != fixed);
    assert!(rt; one != other);
}
