use thiserror::Error;

/// Why the words of a text have no tree.
#[derive(Clone, Copy, Debug, PartialEq, Eq, Error)]
pub enum SyntaxKind {
    #[error("unexpected token")]
    Unexpected,
    #[error("nesting too deep")]
    TooDeep,
    #[error("expression too long")]
    TooLong,
    #[error("no loop to break")]
    NoLoop,
    #[error("cannot use '...' outside a vararg function")]
    NoVararg,
    #[error("ambiguous syntax (function call x new statement)")]
    Ambiguous,
}
