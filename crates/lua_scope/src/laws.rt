ghost use Rattle.std.specs.Prelude.{◌≡◌, ◌≢◌, ℕ, Bool, List, [], ◌∷◌, ◌++◌, Some, None, length};
ghost use Rattle.std.specs.List.{AllByRecursion};
ghost use Rattle.lua_scope.specs.declared.place.Declaration.{Declaration};
ghost use Rattle.lua_scope.specs.Scoping.{FunctionScope, Nesting, entered, left, declared, named, declaration, place};
ghost use Rattle.lua_scope.specs.Scoping.{captures};
ghost use Rattle.lua_scope.specs.Texts.{Text, after, DeclaresNot, local_at, IsInnermost};
ghost use Rattle.lua_scope.specs.Captures.{IsPlaceIn, within};

use crate::Place;

/// The rule of visibility (Lua 5.1 manual, 2.6), of all scopes. A name stands for the innermost local of that name,
/// whose
/// number is below the count of the locals in scope in its function, and for a global exactly where there is none. A
/// local is seen behind its declaration, and hides what had its name; every other name stands for what it stood for. A
/// name has the same declaration until the text itself declares it again, whatever its inner blocks and functions
/// declare.
/// Behind a block or a function each name has the declaration that it had before, and the same locals are in scope. A
/// name
/// that is read again has the place that it had, as long as it has the same declaration.
pub fn names_stand_for_the_innermost_local()
    ensures innermost { (name : List ℕ) (s : Nesting) (d : Declaration) → declaration name s ≡ Some d
        → IsInnermost name s d }
    ensures undeclared { (name : List ℕ) (s : Nesting) → declaration name s ≡ None → (d : Declaration)
        → local_at s d ≢ Some name }
    ensures seen { (name : List ℕ) (s : Nesting)
        → place name (declared name s) ≡ Place.Local (length s.running.locals) }
    ensures others { (name other : List ℕ) (s : Nesting) → other ≢ name
        → place other (declared name s) ≡ place other s }
    ensures kept { (name : List ℕ) (text : Text) (s : Nesting) → DeclaresNot name text
        → declaration name (after text s) ≡ declaration name s }
    ensures behind { (function : Bool) (body : Text) (s : Nesting) (name : List ℕ)
        → declaration name (left (after body (entered function s))) ≡ declaration name s }
    ensures forgotten { (function : Bool) (body : Text) (s : Nesting)
        → (left (after body (entered function s))).running.locals ≡ s.running.locals }
    ensures again { (name : List ℕ) (text : Text) (s : Nesting) → declaration name (after text (named name s))
        ≡ declaration name s
        → place name (after text (named name s)) ≡ place name s }
{}

/// Wherever a text is read, each local that the running function has captured is, in the function around it, one of the
/// locals in scope or of those that it has captured (Lua 5.1 manual, 2.6, external local variables).
pub fn captured_locals_are_found()
    ensures { (text : Text) (begun : List (Bool × Text)) (outer : List FunctionScope) (around : FunctionScope)
        → (within text begun).enclosing ≡ outer ++ around ∷ []
        → AllByRecursion (IsPlaceIn around) (captures (within text begun)) }
{}
