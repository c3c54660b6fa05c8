use lua_scope::{Place, Scopes};
use rs_base::{Bytes, NoMemory, write_decimal};

/// Carries a call on scopes out. `Ok(false)` where it is none.
pub fn answer(
    scopes: &mut Scopes,
    name: &str,
    text: &[u8],
    out: &mut Bytes,
) -> Result<bool, NoMemory> {
    match name {
        "enter" => enter(scopes, text, out)?,
        "leave" => leave(scopes, out)?,
        "entered" => put_entered(scopes, out)?,
        "declare" => declare(scopes, text, out)?,
        "find" => find(scopes, text, out)?,
        "captures" => put_captures(scopes, out)?,
        _ => return Ok(false),
    }
    Ok(true)
}

// A block, unless the text is `function`.
fn enter(scopes: &mut Scopes, text: &[u8], out: &mut Bytes) -> Result<(), NoMemory> {
    scopes.enter(text == b"function".as_slice())?;
    out.append(b"ok")
}

fn leave(scopes: &mut Scopes, out: &mut Bytes) -> Result<(), NoMemory> {
    if !scopes.is_entered() {
        return out.append(b"not entered");
    }
    scopes.leave();
    out.append(b"ok")
}

fn put_entered(scopes: &Scopes, out: &mut Bytes) -> Result<(), NoMemory> {
    if scopes.is_entered() {
        out.append(b"yes")
    } else {
        out.append(b"no")
    }
}

fn declare(scopes: &mut Scopes, name: &[u8], out: &mut Bytes) -> Result<(), NoMemory> {
    let number = scopes.declare(name)?;
    write_decimal(u64::from(number), out)
}

fn find(scopes: &mut Scopes, name: &[u8], out: &mut Bytes) -> Result<(), NoMemory> {
    let place = scopes.find(name)?;
    put_place(place, out)
}

fn put_captures(scopes: &Scopes, out: &mut Bytes) -> Result<(), NoMemory> {
    let places = scopes.captures()?;
    if places.is_empty() {
        return out.append(b"none");
    }
    for (at, place) in places.as_slice().iter().enumerate() {
        if at > 0 {
            out.append(b", ")?;
        }
        put_place(*place, out)?;
    }
    Ok(())
}

fn put_place(place: Place, out: &mut Bytes) -> Result<(), NoMemory> {
    match place {
        Place::Local(number) => put_numbered(b"Local ", number, out),
        Place::Captured(number) => put_numbered(b"Captured ", number, out),
        Place::Global => out.append(b"Global"),
    }
}

fn put_numbered(kind: &[u8], number: u32, out: &mut Bytes) -> Result<(), NoMemory> {
    out.append(kind)?;
    write_decimal(u64::from(number), out)
}
