//! Keys by which names are hashed.
use std::hash::BuildHasher;
use std::io;
use std::io::ErrorKind;
use std::random::RandomSource;
use tb_base::HashKey;

// A machine that draws one byte again and again, or fails.
struct Drawing {
    byte: Option<u8>,
}

impl RandomSource for Drawing {
    fn fill_bytes(&self, buf: &mut [u8]) -> io::Result<()> {
        let Some(byte) = self.byte else {
            return Err(io::Error::from(ErrorKind::Unsupported));
        };
        buf.fill(byte);
        Ok(())
    }
}

// What a key makes of a number.
fn hash_by(key: HashKey) -> u64 {
    key.hash_one(7_u64)
}

#[test]
fn key_is_what_the_machine_draws(rt: HostRuntime) {
    let known = hash_by(HashKey::known());
    let one = hash_by(HashKey::drawn(&Drawing { byte: Some(1) }));
    let two = hash_by(HashKey::drawn(&Drawing { byte: Some(2) }));
    assert!(rt; one != two && one != known && two != known);
    assert!(rt; hash_by(HashKey::drawn(&rt)) != hash_by(HashKey::drawn(&rt)));
    assert_eq!(rt; hash_by(HashKey::drawn(&Drawing { byte: None })), known);
}
