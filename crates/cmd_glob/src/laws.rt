ghost use Rattle.std.specs.Prelude.{◌≡◌, ◌↔◌, ◌⊎◌, ℕ, false, List, [], ◌∷◌, ◌++◌, IsTrue};
ghost use Rattle.std.specs.List.{AllByRecursion, flat_map};
ghost use Rattle.cmd_glob.specs.declared.symbol.Symbol.{Symbol};
ghost use Rattle.cmd_glob.specs.declared.part.Part.{Part};
ghost use Rattle.cmd_glob.specs.Symbols.{plain, is_mark};
ghost use Rattle.cmd_glob.specs.Sets.{set_of, is_in};
ghost use Rattle.cmd_glob.specs.Patterns.{parts_of};
ghost use Rattle.cmd_glob.specs.Matching.{Matches};
ghost use Rattle.cmd_glob.specs.Listing.{IsPlain, spelling, StandsInside, Lists, IsBetween};

/// How a pattern is read: a byte is itself, but for `?`, `*`, `[` and the backslash. A byte behind a backslash is
/// itself, and so is a last backslash. A set has what stands before the first `]` that no backslash stands before; a
/// `[` without a `]` has all that follows it.
pub fn a_pattern_is_read_from_the_left()
    ensures plain { (b : ℕ) (rest : List ℕ) → IsPlain b → parts_of (b ∷ rest) ≡ Part.Byte b ∷ parts_of rest }
    ensures any { (rest : List ℕ) → parts_of (63 ∷ rest) ≡ Part.Any ∷ parts_of rest }
    ensures stars { (rest : List ℕ) → parts_of (42 ∷ rest) ≡ Part.Stars ∷ parts_of rest }
    ensures escaped { (b : ℕ) (rest : List ℕ) → parts_of (92 ∷ b ∷ rest) ≡ Part.Byte b ∷ parts_of rest }
    ensures last_backslash { parts_of (92 ∷ []) ≡ Part.Byte 92 ∷ [] }
    ensures set { (inside : List Symbol) (rest : List ℕ) → AllByRecursion StandsInside inside
        → parts_of (91 ∷ (spelling inside ++ 93 ∷ rest)) ≡ Part.OneOf (set_of inside) ∷ parts_of rest }
    ensures unclosed { (inside : List Symbol) → AllByRecursion StandsInside inside
        → parts_of (91 ∷ spelling inside) ≡ Part.OneOf (set_of inside) ∷ [] }
{}

/// What a set `[..]` matches: one byte that it lists, or with a `^` first one byte that it does not list. It lists the
/// bytes in it, and with a `-` between two bytes all from the one to the other, in either order. A `-` that stands
/// last is itself. So `[]` matches no byte, and `[^]` each.
pub fn a_set_matches_one_of_its_bytes()
    ensures one { (inside : List Symbol) (text : List ℕ)
        → Matches (Part.OneOf (set_of inside) ∷ []) text ↔ ((b : ℕ) × (text ≡ b ∷ [])
        × IsTrue (is_in (set_of inside) b)) }
    ensures listed { (first : Symbol) (rest : List Symbol) (b : ℕ) → is_mark 94 first ≡ false
        → IsTrue (is_in (set_of (first ∷ rest)) b) ↔ Lists (first ∷ rest) b }
    ensures complement { (rest : List Symbol) (b : ℕ)
        → IsTrue (is_in (set_of (plain 94 ∷ rest)) b) ↔ (Lists rest b → ⊥) }
    ensures nothing { (b : ℕ) → IsTrue (is_in (set_of []) b) → ⊥ }
    ensures everything { (b : ℕ) → IsTrue (is_in (set_of (plain 94 ∷ [])) b) }
    ensures range { (low high : Symbol) (rest : List Symbol) (b : ℕ)
        → Lists (low ∷ plain 45 ∷ high ∷ rest) b ↔ (IsBetween low.byte high.byte b ⊎ Lists rest b) }
    ensures byte { (first next : Symbol) (rest : List Symbol) (b : ℕ) → is_mark 45 next ≡ false
        → Lists (first ∷ next ∷ rest) b ↔ ((b ≡ first.byte) ⊎ Lists (next ∷ rest) b) }
    ensures last { (first : Symbol) (b : ℕ) → Lists (first ∷ []) b ↔ (b ≡ first.byte) }
    ensures last_dash { (first : Symbol) (b : ℕ) → Lists (first ∷ plain 45 ∷ []) b ↔ ((b ≡ first.byte) ⊎ (b ≡ 45)) }
{}

/// What patterns match: `*` every text, `?` exactly the texts of one byte, a pattern of plain bytes itself alone, and
/// so any text with a backslash before each of its bytes. A pattern behind another one matches where the text splits
/// into one that the first matches and one that the second matches.
pub fn a_pattern_matches_whole_texts()
    ensures stars { (text : List ℕ) → Matches (parts_of (42 ∷ [])) text }
    ensures any { (text : List ℕ) → Matches (parts_of (63 ∷ [])) text ↔ ((b : ℕ) × (text ≡ b ∷ [])) }
    ensures plain { (bytes text : List ℕ) → AllByRecursion IsPlain bytes
        → Matches (parts_of bytes) text ↔ (text ≡ bytes) }
    ensures escaped { (bytes text : List ℕ)
        → Matches (parts_of (flat_map (λ b. 92 ∷ b ∷ []) bytes)) text ↔ (text ≡ bytes) }
    ensures behind { (parts more : List Part) (text : List ℕ) → Matches (parts ++ more) text
        ↔ ((front rest : List ℕ) × (text ≡ front ++ rest) × Matches parts front × Matches more rest) }
{}
