/// The outside failed a call.
#[derive(Clone, Copy, Debug, PartialEq, Eq)]
pub struct Failed;
