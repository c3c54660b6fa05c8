ghost use Rattle.std.specs.Prelude.{◌≡◌, ◌∷◌, ◌↔◌, IsTrue, option_map};
ghost use Rattle.std.specs.List.{list_all};
ghost use Rattle.cmd_glob.specs.declared.part.Part.TheVariants.{Stars};
ghost use Rattle.cmd_glob.specs.Matching.{Matches};
ghost use Rattle.cmd_glob.specs.Places.{is_stars, behind_stars, behind_byte};

use crate::part::Part;

// A place in a pattern and the place in a text that is compared with it.
#[derive(Clone, Copy)]
struct Place<'a> {
    parts: &'a [Part],
    text: &'a [u8],
}

/// Whether these parts match the whole text.
pub fn matches_from(parts: &[Part], text: &[u8]) -> bool
    ensures { IsTrue result ↔ Matches parts.now text.now }
{
    let mut here = Place { parts, text };
    while !here.parts.is_empty() {
        if let Some(parts) = behind_stars(here.parts) {
            return matches_behind_stars(parts, here.text);
        }
        let Some((byte, text)) = here.text.split_first() else {
            return false;
        };
        let Some(parts) = behind_byte(*byte, here.parts) else {
            return false;
        };
        here = Place { parts, text };
    }
    here.text.is_empty()
}

// The parts behind a `*`. `None` exactly where the first part is no `*`.
fn behind_stars(parts: &[Part]) -> Option<&[Part]>
    ensures { option_map (λ more. more.now) result ≡ behind_stars parts.now }
{
    let (first, more) = parts.split_first()?;
    if first.is_stars() { Some(more) } else { None }
}

// The parts behind the first, where that can stand for this one byte.
fn behind_byte(byte: u8, parts: &[Part]) -> Option<&[Part]>
    ensures { option_map (λ more. more.now) result ≡ behind_byte byte parts.now }
{
    let (first, more) = parts.split_first()?;
    if first.fits(byte) { Some(more) } else { None }
}

// Whether a `*` and these parts match the whole text. Only the last `*` that was met is ever given more bytes: where
// the parts before it match at one place, they need not be tried at a later one.
fn matches_behind_stars(parts: &[Part], text: &[u8]) -> bool
    ensures { IsTrue result ↔ Matches (Stars ∷ parts.now) text.now }
{
    let mut star = Place { parts, text };
    let mut here = star;
    while let Some((byte, text)) = here.text.split_first() {
        if let Some(parts) = behind_stars(here.parts) {
            here.parts = parts;
            star = here;
        } else if let Some(parts) = behind_byte(*byte, here.parts) {
            here = Place { parts, text };
        } else {
            star.text = &star.text[1..];
            here = star;
        }
    }
    are_stars(here.parts)
}

fn are_stars(parts: &[Part]) -> bool
    ensures { result ≡ list_all (λ part. is_stars part) parts.now }
{
    parts.iter().all(|part| part.is_stars())
}
