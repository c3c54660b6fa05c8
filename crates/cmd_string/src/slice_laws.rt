ghost use Rattle.cmd_string.specs.SliceLaws.{GetRangeGivesASlice, GetRangeBackwardIsEmpty, GetRangeOfNoneIsEmpty};
ghost use Rattle.cmd_string.specs.SliceLaws.{SetRangeFillsWithZeroBytes, SetRangeKeepsToTheLimit};
ghost use Rattle.cmd_string.specs.SliceLaws.{SetRangeRefusesANegativeOffset};

/// GETRANGE answers the bytes of the string from one place to another, that one too, and changes nothing. A negative
/// place counts from the end, and the places are limited to the string. It answers the empty string where the key does
/// not exist, and where both places are counted from the end and the first is past the second.
pub fn getrange_gives_a_slice()
    ensures slice { GetRangeGivesASlice }
    ensures backward { GetRangeBackwardIsEmpty }
    ensures absent { GetRangeOfNoneIsEmpty }
{}

/// After SETRANGE the value stands in the string from the offset on, with the old bytes around it, and with zero bytes
/// where the old string did not reach the offset. A key that does not exist counts as the empty string. The reply is
/// the new length, and the key keeps its deadline. A negative offset is refused, and so is a string of more than
/// 16,777,216 bytes.
pub fn setrange_fills_with_zero_bytes()
    ensures written { SetRangeFillsWithZeroBytes }
    ensures limit { SetRangeKeepsToTheLimit }
    ensures negative { SetRangeRefusesANegativeOffset }
{}
