use rs_base::NoMemory;
use thiserror::Error;

/// The outside failed, and counted a fault.
#[derive(Clone, Copy, Debug, PartialEq, Eq, Error)]
#[error("the outside failed")]
pub struct Failed;

/// Why a call of the outside gave up.
#[derive(Clone, Copy, Debug, PartialEq, Eq, Error)]
pub enum IoStop {
    /// The outside failed, and counted a fault.
    #[error("the outside failed")]
    Failed,
    /// Memory ran out.
    #[error("out of memory")]
    NoMemory,
}

impl From<NoMemory> for IoStop {
    ghost use Rattle.rs_outside.specs.declared.stops.IoStop.{IoStop};
    ghost use Rattle.std.specs.Prelude.{◌≡◌};

    ghost from_gives = { λ _ stop. stop ≡ IoStop.NoMemory };

    fn from(_error: NoMemory) -> IoStop {
        IoStop::NoMemory
    }
}
