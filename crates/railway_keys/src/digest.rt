//! The SHA-256 of a key.
ghost use Rattle.std.specs.Prelude.{◌≡◌, bytes_eq};
ghost use Rattle.sha2.specs.Sha256.{sha256};
ghost use Rattle.railway_keys.specs.Keys.{digest_of};

use hex::FromHex;
use sha2::{Digest, Sha256};
use std::fmt;
use std::marker::Model;

/// The SHA-256 of a key. It is never printed, and two of them are compared in the same time wherever they differ.
#[derive(Clone, Copy)]
pub struct KeyDigest {
    bytes: [u8; 32],
}

impl Model for KeyDigest {
    ghost use Rattle.std.specs.Prelude.{List, ℕ};

    ghost Value = { List ℕ };

    ghost view = { λ digest. digest.bytes };

    ghost inverse = { λ bytes. record { bytes = bytes } };
}

impl KeyDigest {
    /// That of a key.
    pub fn of(key: &[u8]) -> KeyDigest
        ensures { result ≡ sha256 key.now }
    {
        KeyDigest {
            bytes: Sha256::digest(key),
        }
    }

    /// The one that these 64 hexadecimal digits are, large or small ones.
    pub fn read(digits: &str) -> Option<KeyDigest>
        ensures { result ≡ digest_of digits.now }
    {
        let bytes = <[u8; 32] as FromHex>::from_hex(digits).ok()?;
        Some(KeyDigest { bytes })
    }

    /// Whether both are the same. All bytes are compared, whatever they are.
    pub fn is_same(&self, other: &KeyDigest) -> bool
        ensures { result ≡ bytes_eq self.now other.now }
    {
        let mut difference = 0;
        for i in 0..32 {
            difference |= self.bytes[i] ^ other.bytes[i];
        }
        difference == 0
    }
}

/// Says that it is a digest, and not which.
impl fmt::Debug for KeyDigest {
    fn fmt<W: fmt::Write>(&self, f: &mut fmt::Formatter<W>) -> fmt::Result {
        f.write_str("KeyDigest")
    }
}
