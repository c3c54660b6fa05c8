ghost use Rattle.std.specs.Prelude.{◌≡◌, Ok, Err, IfOk, IfSome, MatchResult, option_copied};
ghost use Rattle.ks_space.specs.Store.{IsShort};
ghost use Rattle.cmd_rows.specs.Strings.{string_at};

use crate::World;
use cmd_args::Refusal;
use ks_space::Value;
use rs_base::Bytes;

/// The string at a key: `None` exactly where the key is absent. A key of another kind is refused.
pub fn string_at<'a>(world: &World<'a>, key: &Bytes) -> Result<Option<&'a Bytes>, Refusal>
    ensures value { MatchResult result (λ text. string_at world.now.store key.now ≡ Ok (option_copied text))
        (λ why. string_at world.now.store key.now ≡ Err why) }
    ensures short { IfOk result (λ text. IfSome text (λ t. IsShort t.now)) }
{
    match world.space.get(key.as_slice()) {
        None => Ok(None),
        Some(entry) => match &entry.value {
            Value::Str(text) => Ok(Some(text)),
            _ => Err(Refusal::WrongType),
        },
    }
}
