// The one reason not to move a deal: its parties or its submarket are not on the board.
#[derive(Clone, Copy, PartialEq, Eq, Debug)]
pub struct OffBoard;
