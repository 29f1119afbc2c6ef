/// What a command needs before its step.
#[derive(Clone, Copy, Debug, PartialEq, Eq)]
pub enum Need {
    Nothing,
    /// Data are taken.
    Take,
    /// What it commits is learned.
    Learn,
    /// What it commits is learned, and then data are taken.
    LearnThenTake,
}
