//! What hashes begin with.
use std::hash::{BuildHasher, FoldHasher, Hasher};
use std::random::RandomSource;

/// What the hash of each name or number begins with. No answer depends on it; but whoever picks the
/// names can make the hashes of many fall together only where he knows it.
#[derive(Clone, Copy)]
pub struct HashKey {
    begun: FoldHasher,
}

impl HashKey {
    /// The key that everyone knows: for names that no stranger picks.
    pub fn known() -> HashKey {
        HashKey {
            begun: FoldHasher::default(),
        }
    }

    /// A key by sixteen bytes that the machine draws, or the known one where it draws none.
    pub fn drawn(rt: &impl RandomSource) -> HashKey {
        let mut bytes = [0; 16];
        if rt.fill_bytes(&mut bytes).is_err() {
            return HashKey::known();
        }
        let mut begun = FoldHasher::default();
        begun.write(&bytes);
        HashKey { begun }
    }
}

impl BuildHasher for HashKey {
    type Hasher = FoldHasher;

    ghost build_hasher = { λ key. key.begun };

    fn build_hasher(&self) -> FoldHasher {
        self.begun
    }
}
