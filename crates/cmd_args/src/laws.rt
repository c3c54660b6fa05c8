ghost use Rattle.std.specs.Prelude.{◌≡◌, ℕ, ◌+◌, ◌<◌, ◌≤◌, List, Some, true};
ghost use Rattle.std.specs.Str.{str_to_ascii_lowercase, str_to_ascii_uppercase};
ghost use Rattle.cmd_args.specs.declared.commands.CmdId.{CmdId};
ghost use Rattle.cmd_args.specs.declared.commands.Row.{Row};
ghost use Rattle.cmd_args.specs.Table.{command, row_of, is_name, row_named};
ghost use Rattle.cmd_args.specs.Draws.{drawn_place, state_behind, state_after, word_after};

/// Each command is found by its name, and no two have the same.
pub fn each_name_stands_once()
    ensures found { (id : CmdId) → row_named (command id).name ≡ Some (row_of id) }
    ensures once { (one other : CmdId) → (command one).name ≡ (command other).name → one ≡ other }
{}

/// A name in upper case or in lower case names what it names as it is.
pub fn a_name_is_found_in_letters_of_either_case()
    ensures lower { (name : List ℕ) → row_named (str_to_ascii_lowercase name) ≡ row_named name }
    ensures upper { (name : List ℕ) → row_named (str_to_ascii_uppercase name) ≡ row_named name }
{}

/// A row that a word finds is that of the command that the word names.
pub fn a_row_that_is_found_is_its_commands()
    ensures { (word : List ℕ) (row : Row) → row_named word ≡ Some row → (is_name word row.id ≡ true)
        × (row ≡ row_of row.id) }
{}

/// A place that is drawn among so many is one of them.
pub fn a_draw_is_within_its_range()
    ensures { (count state : ℕ) → 1 ≤ count → drawn_place count state < count }
{}

/// The draws that follow the first are those of the state after it.
pub fn draws_follow_one_another()
    ensures { (state draw : ℕ) → word_after state (draw + 1) ≡ word_after (state_behind state) draw }
{}
