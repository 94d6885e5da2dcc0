//! Cells that decide rounds.

/// The cell of a round, by its shared account and its round.
#[derive(Drop)]
pub struct Cell {
    pub account: u32,
    pub round: u32,
}
