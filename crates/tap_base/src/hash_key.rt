//! The key under which maps hash what comes from mail and from queries.

use std::hash::{BuildHasher, DefaultHasher, RandomState};
use std::random::RandomSource;

/// The key under which a map hashes its keys, by SipHash-1-3. Whoever doesn't know it can't choose
/// texts whose hashes collide. A program draws one when it starts. No result depends on it.
#[derive(Clone, Copy)]
pub struct HashKey {
    // A hasher that has been given the key and nothing else.
    start: DefaultHasher,
}

impl HashKey {
    /// Returns the key that is the same in every process: for tests, and for texts that nobody
    /// chooses to collide.
    pub fn fixed() -> HashKey {
        HashKey {
            start: DefaultHasher::new(),
        }
    }

    /// Draws a key from the system's random bytes. Returns the fixed key if the system gives none.
    pub fn draw(rt: &impl RandomSource) -> HashKey {
        match RandomState::new(rt) {
            Ok(state) => HashKey {
                start: state.build_hasher(),
            },
            Err(_) => HashKey::fixed(),
        }
    }
}

impl BuildHasher for HashKey {
    type Hasher = DefaultHasher;

    ghost build_hasher = { λ key. key.start };

    fn build_hasher(&self) -> DefaultHasher {
        self.start
    }
}
