ghost use Rattle.std.specs.Prelude.{◌≡◌, ℕ, List, [], ◌++◌, map};
ghost use Rattle.resp_read.specs.declared.stops.BadFrame.{BadFrame};
ghost use Rattle.resp_read.specs.Frames.{Form, Begins, LongestSequence, IsBad, IsBadPlace, commands_in, commands_from};
ghost use Rattle.resp_read.specs.Reading.{Unfinished, reading, going_on, IsReadingOf};

/// What readers read is what the grammar of requests says, of every text.
pub fn reading_is_the_grammar()
    // The reading of a text is its longest sequence of forms, and the bad byte where there is one.
    ensures reads { (text : List ℕ) → IsReadingOf text (reading text) }
    // A text goes on as what is left of it does, and a bad byte stays: it does not matter in which pieces it comes.
    ensures nothing { reading [] ≡ Unfinished [] [] }
    ensures goes_on { (text more : List ℕ) → reading (text ++ more) ≡ going_on (reading text) more }
    ensures left { (text : List ℕ) (forms : List Form) (left : List ℕ) → reading text ≡ Unfinished forms left
        → reading left ≡ Unfinished [] left }
    // A text has one longest sequence, and at most one bad byte, of one kind; with one it begins no sequence.
    ensures one_sequence { (text : List ℕ) (forms others : List Form) (left rest : List ℕ)
        → LongestSequence text forms left → LongestSequence text others rest → (forms ≡ others) × (left ≡ rest) }
    ensures one_bad { (text : List ℕ) (place at : ℕ) (kind what : BadFrame)
        → IsBad text place kind → IsBad text at what → (place ≡ at) × (kind ≡ what) }
    ensures not_both { (text : List ℕ) (place : ℕ) → Begins text → IsBadPlace text place → ⊥ }
    ensures words { (at : ℕ) (forms : List Form)
        → map (λ command. command.words) (commands_from at forms) ≡ commands_in forms }
{}
