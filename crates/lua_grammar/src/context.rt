ghost use Rattle.std.specs.Prelude.{◌≡◌, ◌<◌};
ghost use Rattle.lua_grammar.specs.Contexts as spec;

/// Where in a text something stands.
#[derive(Clone, Copy, Debug, PartialEq, Eq)]
pub struct Context {
    /// How many inner blocks, function bodies, parentheses, constructors, bracketed indexes, argument lists and unary
    /// operators enclose it.
    pub level: usize,
    /// Whether a loop of the same function encloses it.
    pub in_loop: bool,
    /// Whether the function takes `...`.
    pub varargs: bool,
}

impl Context {
    /// The main text, which takes no `...`.
    pub fn main_text() -> Context
        ensures { result ≡ spec.main_text }
    {
        Context {
            level: 0,
            in_loop: false,
            varargs: false,
        }
    }

    /// One level deeper.
    pub fn inner(self) -> Context
        requires { self.level < 60 }
        ensures { result ≡ spec.inner self }
    {
        Context {
            level: self.level + 1,
            in_loop: self.in_loop,
            varargs: self.varargs,
        }
    }

    /// The block of a loop.
    pub fn looped(self) -> Context
        requires { self.level < 60 }
        ensures { result ≡ spec.looped self }
    {
        Context {
            level: self.level + 1,
            in_loop: true,
            varargs: self.varargs,
        }
    }

    /// The body of a function, which takes `...` or not.
    pub fn function(self, varargs: bool) -> Context
        requires { self.level < 60 }
        ensures { result ≡ spec.function varargs self }
    {
        Context {
            level: self.level + 1,
            in_loop: false,
            varargs,
        }
    }
}
