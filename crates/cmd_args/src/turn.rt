/// Where a command came from.
#[derive(Clone, Copy, Debug, PartialEq, Eq)]
pub enum Mode {
    /// A client sent it.
    Client,
    /// A script called it.
    Script,
    /// A script that may not write called it.
    ScriptRo,
}

/// What a command is told of the turn that it runs in.
#[derive(Clone, Copy, Debug, PartialEq, Eq)]
pub struct Ctx {
    /// The turn's time, in milliseconds since the Unix epoch.
    pub time: u64,
}
