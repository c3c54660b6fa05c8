ghost use Rattle.std.specs.Prelude.{◌≡◌};
ghost use Rattle.cmd_glob.specs.Places.{is_stars, fits};

use crate::byte_set::ByteSet;

/// A part of a pattern.
#[derive(Drop)]
pub enum Part {
    /// `?`, which stands for any one byte.
    Any,
    /// `*`, which stands for any row of bytes, also for none.
    Stars,
    /// A byte that stands for itself.
    Byte(u8),
    /// `[..]`, which stands for one byte of the set.
    OneOf(ByteSet),
}

impl Part {
    pub fn is_stars(&self) -> bool
        ensures { result ≡ is_stars self.now }
    {
        matches!(self, Part::Stars)
    }

    /// Whether it can stand for this one byte.
    pub fn fits(&self, byte: u8) -> bool
        ensures { result ≡ fits self.now byte }
    {
        match self {
            Part::Any => true,
            Part::Stars => false,
            Part::Byte(own) => byte == *own,
            Part::OneOf(set) => set.has(byte),
        }
    }
}
