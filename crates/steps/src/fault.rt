use thiserror::Error;

/// Why a stream is damaged.
#[derive(Clone, Copy, Debug, PartialEq, Eq, Error)]
pub enum Fault {
    #[error("the stream ends within its header")]
    ShortHeader,
    #[error("a term of no views")]
    ZeroLength,
    #[error("an unknown board")]
    UnknownBoard,
    #[error("the stream ends within a step")]
    PartOfAStep,
    #[error("an unknown operation")]
    UnknownOperation,
    #[error("an unknown kind")]
    UnknownKind,
    #[error("unknown asks")]
    UnknownAsks,
    #[error("neither called nor offered")]
    UnknownOffer,
}
