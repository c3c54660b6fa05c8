ghost use Rattle.std.specs.Prelude.{◌≡◌, ◌↔◌, ℕ, ℤ, List, Ok, FitsSigned};
ghost use Rattle.std.specs.Int.{w64};
ghost use Rattle.rs_whole.specs.Integers.{integer_text};
ghost use Rattle.fx_record.specs.declared.record.Record.{Record};
ghost use Rattle.ks_space.specs.Store.{Store, IsStore};
ghost use Rattle.ks_space.specs.Purge.{IsTimely};
ghost use Rattle.fx_record.specs.Records.{applied};
ghost use Rattle.cmd_rows.specs.Numbers.{number};
ghost use Rattle.cmd_rows.specs.Bounds.{AreTimelyWithin};

/// A word is read as the integer of 64 bits that it spells, and no other word is read.
pub fn a_number_is_the_integer_that_a_word_spells()
    ensures { (word : List ℕ) (z : ℤ) → number word ≡ Ok z ↔ ((word ≡ integer_text z) × FitsSigned w64 z) }
{}

/// Records within the limits that give no deadline that is past keep a store within them, and its deadlines from the
/// past.
pub fn records_that_keep_to_time_and_limits()
    ensures limits { (time : ℕ) (store : Store) (records : List Record) → IsStore store → AreTimelyWithin time records
        → IsStore (applied store records) }
    ensures time { (time : ℕ) (store : Store) (records : List Record) → IsTimely store time
        → AreTimelyWithin time records
        → IsTimely (applied store records) time }
{}
