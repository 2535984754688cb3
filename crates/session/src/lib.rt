// A session: what each line asks of a month, and what is replied.
#![tactic(auto)]

use crate::desk::any::AnyDesk;

pub mod answering;
pub mod desk;
pub mod kind;
pub mod shown;
pub mod stage;

// At most one month, on a board of one kind of entry or the other.
pub struct Session {
    desk: AnyDesk,
}
