ghost use Rattle.std.specs.Prelude.{◌≡◌};

use rs_base::Bytes;
use smallvec::SmallVec;
use std::alloc::{AllocError, Global};
use std::marker::Model;

// So many bytes of a member stand in the set's own nodes. With them a node is as large as with 16.
const INLINE_BYTES: usize = 24;

/// A member of a set. Contracts see it as the list of its bytes. The bytes of a short one stand in the value itself,
/// so that a search compares them without another reach into memory.
#[derive(Debug, Drop)]
pub struct Member {
    bytes: SmallVec<u8, INLINE_BYTES>,
}

impl Model for Member {
    ghost use Rattle.std.specs.Prelude.{List, ℕ};

    ghost Value = { List ℕ };

    ghost view = { λ m. m.bytes.items };
}

impl Member {
    /// A member of these bytes. It takes no memory: a short one needs none, and a longer one keeps that of the bytes.
    pub fn from_bytes(alloc: Global, bytes: Bytes) -> Member
        ensures { result ≡ bytes }
    {
        if bytes.len() > INLINE_BYTES {
            return Member {
                bytes: SmallVec::from_vec(bytes.into_vec()),
            };
        }
        let Ok(bytes) = SmallVec::from_slice(alloc, bytes.as_slice()) else {
            unreachable!()
        };
        Member { bytes }
    }

    /// The bytes in order.
    pub fn as_slice(&self) -> &[u8]
        ensures { result.now ≡ self.now }
    {
        self.bytes.as_slice()
    }
}

impl Clone for Member {
    ghost use Rattle.std.specs.Prelude.{◌≡◌};

    ghost is_clone = { λ old new. new ≡ old };

    fn clone(&self) -> Result<Member, AllocError> {
        Ok(Member {
            bytes: self.bytes.clone()?,
        })
    }
}
