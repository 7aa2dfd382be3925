use super::tally::Tally;

// The shared rule (MEBA): all high tasks draw on one total.
#[derive(Clone, Copy)]
pub struct Shared {
    pub(crate) tally: Tally,
}
