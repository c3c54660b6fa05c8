ghost use Rattle.std.specs.Prelude.{◌≡◌, ◌≢◌, ◌↔◌, ℕ, List, [], ◌∷◌, ◌++◌, Some, None, true, false, not, filter};
ghost use Rattle.std.specs.Prelude.{Contains, IsSome, IsTrue};
ghost use Rattle.std.specs.Str.{bytes_eq};
ghost use Rattle.ks_value.specs.Fields.{Pairs, fields, HasDistinctFields, value_of, set_field, remove_field};
ghost use Rattle.ks_value.specs.Members.{IsAscending, is_member, insert_member, remove_member};

/// The law of setting a field (Redis manual, HSET). The field has the value, and each other field has the value that it
/// had. A field that is there keeps its place, and so the fields and their order stay; a new one goes last. No field
/// stands twice.
pub fn a_field_that_is_set_changes_alone()
    ensures here { (pairs : Pairs) (field value : List ℕ) → value_of (set_field pairs field value) field ≡ Some value }
    ensures others { (pairs : Pairs) (field value other : List ℕ) → other ≢ field
        → value_of (set_field pairs field value) other ≡ value_of pairs other }
    ensures keeps_its_place { (pairs : Pairs) (field value : List ℕ) → IsSome (value_of pairs field)
        → fields (set_field pairs field value) ≡ fields pairs }
    ensures new_goes_last { (pairs : Pairs) (field value : List ℕ) → value_of pairs field ≡ None
        → set_field pairs field value ≡ pairs ++ (field, value) ∷ [] }
    ensures distinct { (pairs : Pairs) (field value : List ℕ) → HasDistinctFields pairs
        → HasDistinctFields (set_field pairs field value) }
{}

/// The law of removing a field (Redis manual, HDEL), where no field stands twice. The field is absent, the others keep
/// their values and their order, and a field that is set again stands last.
pub fn a_field_that_is_removed_leaves_alone()
    ensures gone { (pairs : Pairs) (field : List ℕ) → HasDistinctFields pairs
        → value_of (remove_field pairs field) field ≡ None }
    ensures others { (pairs : Pairs) (field other : List ℕ) → other ≢ field
        → value_of (remove_field pairs field) other ≡ value_of pairs other }
    ensures order { (pairs : Pairs) (field : List ℕ) → HasDistinctFields pairs
        → remove_field pairs field ≡ filter (λ p. not (bytes_eq field p.0)) pairs }
    ensures set_again { (pairs : Pairs) (field value : List ℕ) → HasDistinctFields pairs
        → set_field (remove_field pairs field) field value ≡ remove_field pairs field ++ (field, value) ∷ [] }
    ensures distinct { (pairs : Pairs) (field : List ℕ) → HasDistinctFields pairs
        → HasDistinctFields (remove_field pairs field) }
{}

/// The law of sets (Redis manual, SADD and SREM). A member that is inserted is there, one that is removed is not, and
/// each other one is there exactly where it was. The members stay in byte order, each once, and two sets of the same
/// members are equal.
pub fn a_set_changes_by_one_member()
    ensures member { (members : List (List ℕ)) (member : List ℕ)
        → IsTrue (is_member members member) ↔ Contains members member }
    ensures inserted { (members : List (List ℕ)) (member : List ℕ)
        → is_member (insert_member members member) member ≡ true }
    ensures others_stay { (members : List (List ℕ)) (member other : List ℕ) → other ≢ member
        → is_member (insert_member members member) other ≡ is_member members other }
    ensures removed { (members : List (List ℕ)) (member : List ℕ) → IsAscending members
        → is_member (remove_member members member) member ≡ false }
    ensures others_remain { (members : List (List ℕ)) (member other : List ℕ) → IsAscending members → other ≢ member
        → is_member (remove_member members member) other ≡ is_member members other }
    ensures ascending_with { (members : List (List ℕ)) (member : List ℕ) → IsAscending members
        → IsAscending (insert_member members member) }
    ensures ascending_without { (members : List (List ℕ)) (member : List ℕ) → IsAscending members
        → IsAscending (remove_member members member) }
    ensures same { (one two : List (List ℕ)) → IsAscending one → IsAscending two
        → ((member : List ℕ) → is_member one member ≡ is_member two member) → one ≡ two }
{}
