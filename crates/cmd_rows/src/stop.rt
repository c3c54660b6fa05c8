use cmd_args::Refusal;
use rs_base::NoMemory;
use std::alloc::{AllocError, AllocFailed};

/// Why a command gives no reply of its own.
#[derive(Debug, Drop)]
pub enum Stop {
    /// It is refused: its reply is the fault, and nothing was done.
    Refused(Refusal),
    /// Memory ran out. What the call was changing is only good for dropping.
    NoMemory,
}

impl From<Refusal> for Stop {
    ghost use Rattle.std.specs.Prelude.{◌≡◌};
    ghost use Rattle.cmd_rows.specs.declared.stop.Stop.{Stop};

    ghost from_gives = { λ why stop. stop ≡ Stop.Refused why };

    fn from(why: Refusal) -> Stop {
        Stop::Refused(why)
    }
}

impl From<NoMemory> for Stop {
    ghost use Rattle.std.specs.Prelude.{◌≡◌};
    ghost use Rattle.cmd_rows.specs.declared.stop.Stop.{Stop};

    ghost from_gives = { λ _ stop. stop ≡ Stop.NoMemory };

    fn from(_error: NoMemory) -> Stop {
        Stop::NoMemory
    }
}

impl From<AllocError> for Stop {
    ghost use Rattle.std.specs.Prelude.{◌≡◌};
    ghost use Rattle.cmd_rows.specs.declared.stop.Stop.{Stop};

    ghost from_gives = { λ _ stop. stop ≡ Stop.NoMemory };

    fn from(_error: AllocError) -> Stop {
        Stop::NoMemory
    }
}

impl<T: Drop> From<AllocFailed<T>> for Stop {
    ghost use Rattle.std.specs.Prelude.{◌≡◌};
    ghost use Rattle.cmd_rows.specs.declared.stop.Stop.{Stop};

    ghost from_gives = { λ _ stop. stop ≡ Stop.NoMemory };

    fn from(_error: AllocFailed<T>) -> Stop {
        Stop::NoMemory
    }
}
