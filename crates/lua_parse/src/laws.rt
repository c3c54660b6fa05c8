ghost use Rattle.std.specs.Prelude.{◌≡◌, ℕ, List};
ghost use Rattle.lua_lex.specs.declared.kinds.LexKind.{LexKind};
ghost use Rattle.lua_lex.specs.Tokens as lex;
ghost use Rattle.lua_grammar.specs.declared.kinds.SyntaxKind.{SyntaxKind};
ghost use Rattle.lua_grammar.specs.declared.statements.Chunk.{Chunk};
ghost use Rattle.lua_grammar.specs.Trees.{HasTree};
ghost use Rattle.lua_parse.specs.Stops.{HasFault};

/// A text has one answer: a tree, or a lexical fault, or a fault of syntax, and each of them on one line and of one
/// kind.
/// That it has one tree at most is `lua_grammar::one_tree`.
pub fn one_answer()
    ensures one_fault { (text : List ℕ) (line line' : ℕ) (kind kind' : SyntaxKind) → HasFault text line kind
        → HasFault text line' kind'
        → (line ≡ line') × (kind ≡ kind') }
    ensures one_lexical { (text : List ℕ) (line line' : ℕ) (kind kind' : LexKind) → lex.StopsAt text line kind
        → lex.StopsAt text line' kind'
        → (line ≡ line') × (kind ≡ kind') }
    ensures tree_or_fault { (text : List ℕ) (chunk : Chunk) (line : ℕ) (kind : SyntaxKind) → HasTree text chunk
        → HasFault text line kind → ⊥ }
    ensures tree_or_lexical { (text : List ℕ) (chunk : Chunk) (line : ℕ) (kind : LexKind) → HasTree text chunk
        → lex.StopsAt text line kind → ⊥ }
    ensures fault_or_lexical { (text : List ℕ) (line line' : ℕ) (kind : SyntaxKind) (kind' : LexKind)
        → HasFault text line kind
        → lex.StopsAt text line' kind' → ⊥ }
{}
