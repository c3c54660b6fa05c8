//! What is sought of a name or a parenthesis with its suffixes.

ghost use Rattle.std.specs.Prelude.{◌≡◌};
ghost use Rattle.lua_parse.specs.Sought.{sought_of, spares};

#[derive(Clone, Copy)]
pub enum Sought {
    /// Nothing more, in an expression.
    Anything,
    /// The front of a statement.
    Front,
    /// What can be assigned to.
    Target,
}

impl Sought {
    /// How many suffixes a call leaves to come.
    pub fn spares(self) -> usize
        ensures { result ≡ spares (sought_of self) }
    {
        match self {
            Sought::Target => 1,
            _ => 0,
        }
    }
}
