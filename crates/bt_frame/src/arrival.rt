//! What arrives on a stream of frames.

/// What arrives on a stream of frames.
#[derive(Clone, Copy, Debug, Drop, PartialEq, Eq)]
pub enum Arrival {
    /// A frame of this kind.
    Frame(u8),
    /// A frame whose payload is over the limit. It was passed over.
    TooLong,
    /// Bytes that do not begin with a header. Where the next frame begins is not known.
    NoFrame,
    /// The end of the input, within a frame.
    CutOff,
}
