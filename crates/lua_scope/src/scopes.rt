ghost use Rattle.std.specs.Prelude.{◌≡◌, ◌↔◌, length, map, All, IsTrue, IfOk, OnOk, OnErr};
ghost use Rattle.lua_scope.specs.Scoping.{declaration, declaration_in, naming_each, noted, place_in};
ghost use Rattle.lua_scope.specs.Functions.{scope_of, HasRoom};

use crate::Place;
use crate::function::{Function, number};
use crate::place::Declaration;
use rs_base::{Bytes, NoMemory, Seq};
use std::alloc::Global;
use std::marker::Model;
use std::mem;

/// The functions and blocks of a Lua text that are open, and the locals in scope there. Contracts see it as the nesting
/// of the functions, from the main text in. A number past 32 bits, which takes as many names in one function, counts as
/// want of memory.
#[derive(Drop)]
pub struct Scopes {
    alloc: Global,
    enclosing: Vec<Function>,
    running: Function,
}

impl Model for Scopes {
    ghost use Rattle.std.specs.Prelude.{map};
    ghost use Rattle.lua_scope.specs.Scoping.{Nesting};
    ghost use Rattle.lua_scope.specs.Functions.{scope_of};

    ghost Value = { Nesting };

    ghost view = { λ s. record { enclosing = map scope_of s.enclosing.items; running = scope_of s.running } };
}

fn declaration_among(functions: &[Function], name: &[u8]) -> Option<Declaration>
    ensures { result ≡ declaration_in name.now 0 (map scope_of functions.now) }
{
    for depth in (0..functions.len()).rev() {
        if let Some(number) = functions[depth].number_of(name) {
            return Some(Declaration { depth, number });
        }
    }
    None
}

fn reserve_each(functions: &mut [Function]) -> Result<(), NoMemory>
    ensures kept { map scope_of functions.new ≡ map scope_of functions.old }
    ensures ok { OnOk result (All HasRoom functions.new) }
{
    for function in functions.iter_mut() {
        function.reserve()?;
    }
    Ok(())
}

fn note_each(functions: &mut [Function], declaration: Declaration)
    requires { All HasRoom functions.old }
    ensures { map scope_of functions.new ≡ naming_each declaration 0 (map scope_of functions.old) }
{
    for (depth, function) in functions.iter_mut().enumerate() {
        function.note(depth, declaration);
    }
}

fn places_in(
    alloc: Global,
    function: &Function,
    depth: usize,
    captured: &[Declaration],
) -> Result<Seq<Place>, NoMemory>
    ensures { IfOk result (λ places. places ≡ map (place_in (scope_of function.now) depth) captured.now) }
{
    let mut places = Seq::new(alloc);
    for declaration in captured {
        places.push(function.place_of(depth, *declaration)?)?;
    }
    Ok(places)
}

impl Scopes {
    ghost use Rattle.lua_scope.specs.Scoping.{main_text, entered, IsEntered, left, declared, named, place, captures};

    /// The main text, with no local in scope. It takes no memory.
    pub fn new(alloc: Global) -> Scopes
        ensures { result ≡ main_text }
    {
        Scopes {
            alloc,
            enclosing: Vec::new(alloc),
            running: Function::new(alloc),
        }
    }

    /// Begins a function, which then is the running one, or a block of the running function. After `NoMemory` the
    /// scopes are as they were.
    pub fn enter(&mut self, function: bool) -> Result<(), NoMemory>
        ensures ok { OnOk result (self.new ≡ entered function self.old) }
        ensures err { OnErr result (self.new ≡ self.old) }
    {
        if !function {
            self.running.begins.push(self.running.locals.len())?;
            return Ok(());
        }
        let around = mem::replace(&mut self.running, Function::new(self.alloc));
        match self.enclosing.push(around) {
            Ok(()) => Ok(()),
            Err(refused) => {
                self.running = refused.value;
                Err(NoMemory)
            }
        }
    }

    /// Whether a function or a block inside the main text is open.
    pub fn is_entered(&self) -> bool
        ensures { IsTrue result ↔ IsEntered self.now }
    {
        !self.enclosing.is_empty() || !self.running.begins.is_empty()
    }

    /// Ends the innermost block, or the running function where no block inside its body is open. Its locals are no
    /// longer in scope.
    pub fn leave(&mut self)
        requires { IsEntered self.old }
        ensures { self.new ≡ left self.old }
    {
        if let Some(begin) = self.running.begins.pop() {
            self.running.locals.truncate(begin);
        } else if let Some(around) = self.enclosing.pop() {
            self.running = around;
        }
    }

    /// Declares a local in the innermost block, from here on in scope. The answer is its number: how many locals were
    /// in scope in the running function. After `NoMemory` the scopes are as they were.
    pub fn declare(&mut self, name: &[u8]) -> Result<u32, NoMemory>
        ensures number { IfOk result (λ number. number ≡ length self.old.running.locals) }
        ensures ok { OnOk result (self.new ≡ declared name.now self.old) }
        ensures err { OnErr result (self.new ≡ self.old) }
    {
        let count = number(self.running.locals.len())?;
        self.running
            .locals
            .push(Bytes::from_slice(self.alloc, name)?)?;
        Ok(count)
    }

    /// What a name stands for in the running function, which is its innermost declaration in scope. A local of a
    /// function around it is then captured by the running one, and by each function between. After `NoMemory` the
    /// scopes are as they were.
    pub fn find(&mut self, name: &[u8]) -> Result<Place, NoMemory>
        ensures place { IfOk result (λ found. found ≡ place name.now self.old) }
        ensures ok { OnOk result (self.new ≡ named name.now self.old) }
        ensures err { OnErr result (self.new ≡ self.old) }
    {
        match self.declaration(name) {
            None => Ok(Place::Global),
            Some(declaration) => {
                let place = self.running.place_of(self.enclosing.len(), declaration)?;
                self.note(declaration)?;
                Ok(place)
            }
        }
    }

    fn declaration(&self, name: &[u8]) -> Option<Declaration>
        ensures { result ≡ declaration name.now self.now }
    {
        match self.running.number_of(name) {
            Some(number) => Some(Declaration {
                depth: self.enclosing.len(),
                number,
            }),
            None => declaration_among(&self.enclosing, name),
        }
    }

    fn note(&mut self, declaration: Declaration) -> Result<(), NoMemory>
        ensures ok { OnOk result (self.new ≡ noted (Some declaration) self.old) }
        ensures err { OnErr result (self.new ≡ self.old) }
    {
        self.running.reserve()?;
        reserve_each(&mut self.enclosing)?;
        self.running.note(self.enclosing.len(), declaration);
        note_each(&mut self.enclosing, declaration);
        Ok(())
    }

    /// Where the function around the running one finds each local that the running one has captured, in their order.
    /// There are none in the main text.
    pub fn captures(&self) -> Result<Seq<Place>, NoMemory>
        ensures { IfOk result (λ places. places ≡ captures self.now) }
    {
        match self.enclosing.last() {
            None => Ok(Seq::new(self.alloc)),
            Some(around) => {
                let depth = self.enclosing.len() - 1;
                places_in(self.alloc, around, depth, &self.running.captured)
            }
        }
    }
}
