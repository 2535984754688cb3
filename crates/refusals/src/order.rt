// What a line of the script orders, by its letter.
use std::fmt;

#[derive(Clone, Copy, PartialEq, Eq, Debug)]
pub enum Order {
    Prepare(Step),
    Call(Call),
    Close,
    Finish,
    // a line without a letter, as they all are after the end of the script
    Blank,
    // a letter of no other order
    Unnamed,
}

// What a host does to its memories.
#[derive(Clone, Copy, PartialEq, Eq, Debug)]
pub enum Step {
    Renew,
    Lengthen,
    Shorten,
    WriteField,
    WriteRow,
    WriteShortfall,
}

// The calls of a month whose refusals are told by their names.
#[derive(Clone, Copy, PartialEq, Eq, Debug)]
pub enum Call {
    Open,
    Change(Change),
    Ask(Question),
    Certify,
    AskBoard(BoardQuestion),
}

// A call that changes an open month.
#[derive(Clone, Copy, PartialEq, Eq, Debug)]
pub enum Change {
    Offer,
    Confirm,
    End,
    Tell,
}

// A question on all four memories.
#[derive(Clone, Copy, PartialEq, Eq, Debug)]
pub enum Question {
    Lookup,
    Quantity,
    Turnover,
}

// A question on a board alone.
#[derive(Clone, Copy, PartialEq, Eq, Debug)]
pub enum BoardQuestion {
    Position,
    NetPosition,
    PositionBySource,
    Balance,
}

// The letters, each with the numbers that follow it:
//   G agents hours places   new memories
//   + spot, - spot          one element more or less (1 places, 2 rows, 3 shortfalls, 4 board, 5 the board by source)
//   X place field value     writes a field of a contract record, 1 to 11
//   R index value           writes a number of the rows, from 0
//   D agent value           writes a shortfall
//   M agents hours places   opens a month; K closes it; a dot and the count of places taken end it
//   O the nine terms; C number agent weights; E number agent; S agent kWh
//   F number: lookup; Q number hour: quantity; T agent: turnover; W agent bytes: certificate line
//   P, N, Y agent submarket hour: position, net position, position by source; B submarket hour: balance
impl From<u8> for Order {
    fn from(letter: u8) -> Order {
        match letter {
            b'G' => Order::Prepare(Step::Renew),
            b'+' => Order::Prepare(Step::Lengthen),
            b'-' => Order::Prepare(Step::Shorten),
            b'X' => Order::Prepare(Step::WriteField),
            b'R' => Order::Prepare(Step::WriteRow),
            b'D' => Order::Prepare(Step::WriteShortfall),
            b'K' => Order::Close,
            b'.' => Order::Finish,
            0 => Order::Blank,
            _ => Call::named(letter).map_or(Order::Unnamed, Order::Call),
        }
    }
}

impl Call {
    // In the order in which their refusals are told.
    pub const ALL: [Call; 13] = [
        Call::Open,
        Call::Change(Change::Offer),
        Call::Change(Change::Confirm),
        Call::Change(Change::End),
        Call::Change(Change::Tell),
        Call::Ask(Question::Lookup),
        Call::Ask(Question::Quantity),
        Call::Ask(Question::Turnover),
        Call::Certify,
        Call::AskBoard(BoardQuestion::Position),
        Call::AskBoard(BoardQuestion::NetPosition),
        Call::AskBoard(BoardQuestion::PositionBySource),
        Call::AskBoard(BoardQuestion::Balance),
    ];

    // Its place in that order, from 0.
    pub fn index(self) -> usize {
        Call::ALL
            .iter()
            .position(|call| *call == self)
            .unwrap_or(Call::ALL.len())
    }

    fn named(letter: u8) -> Option<Call> {
        Some(match letter {
            b'M' => Call::Open,
            b'O' => Call::Change(Change::Offer),
            b'C' => Call::Change(Change::Confirm),
            b'E' => Call::Change(Change::End),
            b'S' => Call::Change(Change::Tell),
            b'F' => Call::Ask(Question::Lookup),
            b'Q' => Call::Ask(Question::Quantity),
            b'T' => Call::Ask(Question::Turnover),
            b'W' => Call::Certify,
            b'P' => Call::AskBoard(BoardQuestion::Position),
            b'N' => Call::AskBoard(BoardQuestion::NetPosition),
            b'Y' => Call::AskBoard(BoardQuestion::PositionBySource),
            b'B' => Call::AskBoard(BoardQuestion::Balance),
            _ => return None,
        })
    }
}

impl fmt::Display for Call {
    fn fmt<W: fmt::Write>(&self, f: &mut fmt::Formatter<W>) -> fmt::Result {
        f.write_str(match self {
            Call::Open => "open",
            Call::Change(Change::Offer) => "offer",
            Call::Change(Change::Confirm) => "confirm",
            Call::Change(Change::End) => "end",
            Call::Change(Change::Tell) => "tell",
            Call::Ask(Question::Lookup) => "lookup",
            Call::Ask(Question::Quantity) => "quantity",
            Call::Ask(Question::Turnover) => "turnover",
            Call::Certify => "certificate line",
            Call::AskBoard(BoardQuestion::Position) => "position",
            Call::AskBoard(BoardQuestion::NetPosition) => "net position",
            Call::AskBoard(BoardQuestion::PositionBySource) => "position by source",
            Call::AskBoard(BoardQuestion::Balance) => "balance",
        })
    }
}
