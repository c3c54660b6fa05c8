ghost use Rattle.std.specs.Prelude.{◌≡◌, IfOk, OnOk, position};
ghost use Rattle.lua_scope.specs.Scoping.{no_locals, last_place, is_same, captured_place, place_in, naming};
ghost use Rattle.lua_scope.specs.Functions.{scope_of, HasRoom};

use crate::place::{Declaration, Place};
use rs_base::{Bytes, NoMemory};
use std::alloc::Global;

/// A function whose body is open.
#[derive(Drop)]
pub struct Function {
    /// The names of the locals in scope, in order of declaration.
    pub locals: Vec<Bytes>,
    /// Of each open block inside the body, how many locals were in scope when it began.
    pub begins: Vec<usize>,
    /// The locals of functions around it that are named in it, in order of first naming.
    pub captured: Vec<Declaration>,
}

/// A count as a `u32`. One that is past it counts as want of memory.
pub fn number(count: usize) -> Result<u32, NoMemory>
    ensures { IfOk result (λ number. number ≡ count) }
{
    match u32::try_from(count) {
        Ok(number) => Ok(number),
        Err(_) => Err(NoMemory),
    }
}

impl Function {
    pub fn new(alloc: Global) -> Function
        ensures { scope_of result ≡ no_locals }
    {
        Function {
            locals: Vec::new(alloc),
            begins: Vec::new(alloc),
            captured: Vec::new(alloc),
        }
    }

    /// The number of the last local of this name.
    pub fn number_of(&self, name: &[u8]) -> Option<usize>
        ensures { result ≡ last_place name.now 0 self.now.locals.items }
    {
        for at in (0..self.locals.len()).rev() {
            if self.locals[at].as_slice() == name {
                return Some(at);
            }
        }
        None
    }

    fn captured_at(&self, declaration: Declaration) -> Option<usize>
        ensures { result ≡ position (λ known. is_same known declaration) self.now.captured.items }
    {
        self.captured.iter().position(|known| *known == declaration)
    }

    fn captured_place(&self, declaration: Declaration) -> usize
        ensures { result ≡ captured_place declaration (scope_of self.now) }
    {
        self.captured_at(declaration).unwrap_or(self.captured.len())
    }

    /// Where the function, which lies at this depth, finds the local.
    pub fn place_of(&self, depth: usize, declaration: Declaration) -> Result<Place, NoMemory>
        ensures { IfOk result (λ place. place ≡ place_in (scope_of self.now) depth declaration) }
    {
        if declaration.depth == depth {
            Ok(Place::Local(number(declaration.number)?))
        } else {
            Ok(Place::Captured(number(self.captured_place(declaration))?))
        }
    }

    /// Makes room for one more captured local.
    pub fn reserve(&mut self) -> Result<(), NoMemory>
        ensures kept { scope_of self.new ≡ scope_of self.old }
        ensures ok { OnOk result (HasRoom self.new) }
    {
        self.captured.reserve(1)?;
        Ok(())
    }

    /// Notes that the function, which lies at this depth, names the local.
    pub fn note(&mut self, depth: usize, declaration: Declaration)
        requires { HasRoom self.old }
        ensures { scope_of self.new ≡ naming declaration depth (scope_of self.old) }
    {
        if declaration.depth < depth && self.captured_place(declaration) == self.captured.len() {
            // There is room, so it is not refused.
            let _ = self.captured.push(declaration);
        }
    }
}
