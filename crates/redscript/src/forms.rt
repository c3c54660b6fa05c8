ghost use Rattle.std.specs.Prelude.{◌≡◌, ◌↔◌, ℕ, List, IfSome, IfNone, IsSomeAnd, IsTrue};
ghost use Rattle.redscript.specs.declared.forms.Form.{Form};
ghost use Rattle.redscript.specs.Forms.{IsPlay, IsReplay, IsForm, HasNoForm};

use rs_base::Words;

/// What a command line asks for.
#[derive(Clone, Copy)]
pub enum Form<'a> {
    /// `play LOG`: the name of the log.
    Play(&'a [u8]),
    /// `replay`.
    Replay,
}

/// The form that the words of a command line have, if they have one.
pub fn form_of(words: &Words) -> Option<Form<'_>>
    ensures found { IfSome result (IsForm words.now) }
    ensures none { IfNone result (HasNoForm words.now) }
{
    if is_replay(words) {
        return Some(Form::Replay);
    }
    let name = play_name(words)?;
    Some(Form::Play(name))
}

// Whether the words are `replay`.
fn is_replay(words: &Words) -> bool
    ensures { IsTrue result ↔ IsReplay words.now }
{
    match words.as_slice() {
        [command] => command.as_slice() == b"replay".as_slice(),
        _ => false,
    }
}

// The log's name in the words `play LOG`.
fn play_name(words: &Words) -> Option<&[u8]>
    ensures found { IfSome result (λ name. IsPlay words.now name.now) }
    ensures only { (name : List ℕ) → IsPlay words.now name → IsSomeAnd result (λ x. x.now ≡ name) }
{
    let [command, name] = words.as_slice() else {
        return None;
    };
    if command.as_slice() == b"play".as_slice() && !name.is_empty() {
        Some(name.as_slice())
    } else {
        None
    }
}
