use fx_log::dump;
use ks_space::Space;
use rs_base::{Bytes, NoMemory};
use std::alloc::Global;

/// Adds the lines of a store's dump, or `nothing`.
pub fn put_dump(alloc: Global, space: &Space, out: &mut Bytes) -> Result<(), NoMemory> {
    let mut lines = Bytes::new(alloc);
    dump(space, &mut lines)?;
    if lines.is_empty() {
        return out.append(b"nothing");
    }
    for byte in lines.as_slice() {
        out.push(if *byte == b'\n' { b';' } else { *byte })?;
    }
    Ok(())
}
