ghost use Rattle.std.specs.Prelude.{◌≡◌, ℕ, Option, List, ◌++◌};
ghost use Rattle.std.specs.List.{AllByRecursion};
ghost use Rattle.fx_record.specs.declared.record.Record.{Record};
ghost use Rattle.fx_log.specs.declared.group.Group.{Group};
ghost use Rattle.fx_log.specs.declared.stops.LogKind.{LogKind};
ghost use Rattle.fx_log.specs.Groups.{log_text, IsGroup};
ghost use Rattle.fx_log.specs.Items.{Item};
ghost use Rattle.fx_log.specs.Logs.{IsLog, IsGroups, IsBadLog, HasBadPlace, IsCut};
ghost use Rattle.fx_log.specs.Reading.{log_reading, IsLogReadingOf};

use resp_read::reading_is_the_grammar;

/// What logs read as is what the grammar of logs says, of every text.
pub fn log_reading_is_the_grammar()
    // The reading of a text is the groups of its whole items; or those before its bad place, and that place.
    ensures reads { (text : List ℕ) → IsLogReadingOf text (log_reading text) }
    // A text has one list of groups, and at most one bad place, of one kind; a text that is a log so far has none.
    ensures one_list { (text : List ℕ) (groups others : List Group) → IsGroups text groups → IsGroups text others
        → groups ≡ others }
    ensures one_bad { (text : List ℕ) (place at : ℕ) (kind what : LogKind) → IsBadLog text place kind
        → IsBadLog text at what → (place ≡ at) × (kind ≡ what) }
    ensures not_both { (text : List ℕ) (items : List Item) (opened : Option (List Record)) → IsLog text items opened
        → HasBadPlace text → ⊥ }
    // A bad place stays, whatever comes behind it.
    ensures stays { (text more : List ℕ) (place : ℕ) (kind : LogKind) → IsBadLog text place kind
        → IsBadLog (text ++ more) place kind }
{
    reading_is_the_grammar();
}

/// What was written is read back, also where the end of it is lost.
pub fn groups_are_read_back()
    ensures whole { (groups : List Group) → AllByRecursion IsGroup groups
        → IsGroups (log_text groups) groups × (HasBadPlace (log_text groups) → ⊥) }
    // Of a front of a log the groups are read whose text is whole in it, and it has no bad place.
    ensures cut { (groups : List Group) (text more : List ℕ) → AllByRecursion IsGroup groups
        → text ++ more ≡ log_text groups → IsCut text groups }
{
    reading_is_the_grammar();
}
