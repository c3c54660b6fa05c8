/// What a name stands for in the running function (Lua 5.1 manual, 2.6).
#[derive(Clone, Copy, Debug, PartialEq, Eq)]
pub enum Place {
    /// A local variable of the running function: how many locals were in scope in it where it was declared.
    Local(u32),
    /// A local variable of a function around it (an external local variable, or upvalue): its place, from 0, in the
    /// running function's order of first naming. What a function inside it names counts as named by it too.
    Captured(u32),
    /// A global variable: no local of this name is in scope.
    Global,
}

/// A local in scope, told from every other: how deep the function that declares it lies, the main text at 0, and its
/// number there.
#[derive(Clone, Copy, Debug, PartialEq, Eq)]
pub struct Declaration {
    pub depth: usize,
    pub number: usize,
}
