use thiserror::Error;

/// A call on the outside failed: the one fault of these traits. The fault count says on which object.
#[derive(Clone, Copy, Debug, PartialEq, Eq, Error)]
#[error("the call failed")]
pub struct Failed;
