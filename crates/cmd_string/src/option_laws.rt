ghost use Rattle.cmd_string.specs.OptionLaws.{NeighborsMayChangePlaces, OneExcludesAnother, OthersStandTogether};
ghost use Rattle.cmd_string.specs.OptionLaws.{GetExTakesOneOption};

/// The options of SET stand in any order, each at most once: two of them that change places change nothing. NX and XX
/// together are an error in the syntax, and so are two of EX, PX, EXAT, PXAT and KEEPTTL, and an option that stands
/// twice. Others stand together, and each says what it says alone. GETEX takes one option.
pub fn options_stand_in_any_order()
    ensures any_order { NeighborsMayChangePlaces }
    ensures at_most_once { OneExcludesAnother }
    ensures together { OthersStandTogether }
    ensures getex { GetExTakesOneOption }
{}
