// How far a session has come: no month yet, an open one, or a closed one.
use month::phase::{Closed, Month, Open};

pub enum Stage {
    Idle,
    Open(Month<Open>),
    Closed(Month<Closed>),
}
