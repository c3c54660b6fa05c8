ghost use Rattle.std.specs.Prelude.{◌≡◌, ℕ, List, [], ◌∷◌, ◌++◌};
ghost use Rattle.lua_grammar.specs.declared.kinds.SyntaxKind.{SyntaxKind};
ghost use Rattle.lua_grammar.specs.declared.words.Word.{Word};
ghost use Rattle.lua_grammar.specs.declared.statements.Stat.{Stat};
ghost use Rattle.lua_grammar.specs.declared.statements.Body.{Body};
ghost use Rattle.lua_grammar.specs.declared.statements.Chunk.{Chunk};
ghost use Rattle.lua_grammar.specs.Contexts.{Rules, every_rule};
ghost use Rattle.lua_grammar.specs.Trees.{IsTree, HasTree};
ghost use Rattle.lua_grammar.specs.Stops.{Begins, StopsAt};

/// Words that have a tree have no stop, and each front of them begins a text.
pub fn a_tree_has_no_stop()
    ensures no_stop { (words : List Word) (block : List Stat) (bodies : List Body) (last_line line : ℕ)
        (kind : SyntaxKind)
        → IsTree every_rule words block bodies → StopsAt words last_line line kind → ⊥ }
    ensures front { (front back : List Word) (block : List Stat) (bodies : List Body)
        → IsTree every_rule (front ++ back) block bodies → Begins every_rule front }
{}

/// Words have one tree at most, whichever rules are kept, and so has a text.
pub fn one_tree()
    ensures of_words { (rules : Rules) (words : List Word) (block block' : List Stat) (bodies bodies' : List Body)
        → IsTree rules words block bodies → IsTree rules words block' bodies' → (block ≡ block') × (bodies ≡ bodies') }
    ensures of_text { (text : List ℕ) (chunk chunk' : Chunk) → HasTree text chunk → HasTree text chunk'
        → chunk ≡ chunk' }
{}

/// Words have one stop at most: one line and one kind of fault.
pub fn one_stop()
    ensures { (words : List Word) (last_line line line' : ℕ) (kind kind' : SyntaxKind)
        → StopsAt words last_line line kind → StopsAt words last_line line' kind' → (line ≡ line') × (kind ≡ kind') }
{}
