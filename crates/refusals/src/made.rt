// The calls that lines stand for: each is made of a month, which the caller owns and may change, and of a line.
use crate::host::Host;
use crate::order::{BoardQuestion, Call, Change, Order, Question};
use crate::script::Line;
use crate::told::Told;
use book::contract::Offer;
use entry::kinds::{BySource, Net};
use month::phase::{Closed, Month, Open};
use scale::fault::Fault;
use scale::row::RowScale;

impl From<&Line> for Offer {
    fn from(line: &Line) -> Offer {
        Offer {
            number: line.number(0),
            seller: line.number(1),
            buyer: line.number(2),
            submarket: line.number(3),
            class: line.number(4),
            source: line.number(5),
            first: line.number(6),
            last: line.number(7),
            amount: line.number(8),
        }
    }
}

// What an answer tells, whatever it carries: a function, since eight answers need it.
fn only<T: Drop>(answer: Result<T, Fault>) -> Result<(), Fault> {
    answer.map(|_| ())
}

impl Host {
    fn offer(&mut self, month: &mut Month<Open>, line: &Line) -> Result<(), Fault> {
        month.offer(
            self.places.as_mut_slice(),
            self.rows.as_slice(),
            self.owed.as_slice(),
            self.board.as_slice(),
            Offer::from(line),
        )
    }

    // Confirms on the row scale of the line's weights: the numbers after the first two, up to eight.
    fn confirm(&mut self, month: &Month<Open>, line: &Line) -> Result<(), Fault> {
        let mut weights = [0u32; 8];
        for (i, weight) in weights.iter_mut().enumerate() {
            *weight = line.number(i.wrapping_add(2));
        }
        let given = line.given().saturating_sub(2).min(8);
        month.confirm(
            self.places.as_mut_slice(),
            self.rows.as_mut_slice(),
            self.owed.as_slice(),
            self.board.as_mut_slice(),
            line.number(0),
            line.number(1),
            &RowScale::new(&weights[..given]),
        )
    }

    fn end(&mut self, month: &Month<Open>, line: &Line) -> Result<(), Fault> {
        month.end(
            self.places.as_mut_slice(),
            self.rows.as_slice(),
            self.owed.as_slice(),
            self.board.as_mut_slice(),
            line.number(0),
            line.number(1),
        )
    }

    fn tell(&mut self, month: &Month<Open>, line: &Line) -> Result<(), Fault> {
        month.tell(
            self.places.as_mut_slice(),
            self.rows.as_slice(),
            self.owed.as_mut_slice(),
            self.board.as_mut_slice(),
            line.number(0),
            line.number(1),
        )
    }

    // A question on all four memories.
    fn ask<P>(&self, month: &Month<P>, question: Question, line: &Line) -> Result<(), Fault> {
        let lent = self.memories();
        match question {
            Question::Lookup => only(month.lookup(lent, line.number(0))),
            Question::Quantity => only(month.quantity(lent, line.number(0), line.number(1))),
            Question::Turnover => only(month.turnover(lent, line.number(0))),
        }
    }

    // A question on the board, of one kind or the other.
    fn ask_board<P>(
        &self,
        month: &Month<P>,
        question: BoardQuestion,
        line: &Line,
    ) -> Result<(), Fault> {
        let board = self.board.as_slice();
        let by_source = self.by_source.as_slice();
        let (a, b, c) = (line.number(0), line.number(1), line.number(2));
        match question {
            BoardQuestion::Position => only(month.position(board, a, b, c)),
            BoardQuestion::NetPosition => only(month.true_position::<Net>(board, a, b, c)),
            BoardQuestion::PositionBySource => {
                only(month.true_position::<BySource>(by_source, a, b, c))
            }
            BoardQuestion::Balance => only(month.balance(board, a, b)),
        }
    }

    // A question of either sort: a balance, where the order is none.
    fn question<P>(&self, month: &Month<P>, order: Order, line: &Line) -> Result<(), Fault> {
        match order {
            Order::Call(Call::Ask(question)) => self.ask(month, question, line),
            Order::Call(Call::AskBoard(question)) => self.ask_board(month, question, line),
            _ => self.ask_board(month, BoardQuestion::Balance, line),
        }
    }

    // Makes one call, and says what it is told: of a refusal, whether it moved something.
    fn watch<F: FnOnce(&mut Host) -> Result<(), Fault>>(&mut self, make: F) -> Told
        requires { F.IsAlwaysCallable make }
    {
        let before = self.mark();
        let answer = make(self);
        self.told(before, answer)
    }

    // Makes a call of an open month, a change or a question, and says what it is told. Each is watched by itself: of answers that are
    // brought together first, the compiler no longer sees that the refused ones wrote nothing, and marks everything once more.
    pub fn call(&mut self, month: &mut Month<Open>, order: Order, line: &Line) -> Told {
        match order {
            Order::Call(Call::Change(Change::Offer)) => self.watch(|host| host.offer(month, line)),
            Order::Call(Call::Change(Change::Confirm)) => {
                self.watch(|host| host.confirm(month, line))
            }
            Order::Call(Call::Change(Change::End)) => self.watch(|host| host.end(month, line)),
            Order::Call(Call::Change(Change::Tell)) => self.watch(|host| host.tell(month, line)),
            _ => self.watch(|host| host.question(month, order, line)),
        }
    }

    // A certificate line on a page of so many bytes, on which a refusal may write nothing.
    fn certificate(&self, month: &Month<Closed>, agent: u16, room: usize) -> Told {
        let mut page = [b'#'; 65];
        match month.certificate(self.memories(), agent, &mut page[..room.min(65)]) {
            Ok(_) => Told::Passed,
            Err(fault) if page == [b'#'; 65] => Told::from(fault),
            Err(_) => Told::Moved,
        }
    }

    // Makes a call of a closed month, a certificate line or a question, and says what it is told.
    pub fn call_closed(&self, month: &Month<Closed>, order: Order, line: &Line) -> Told {
        if order == Order::Call(Call::Certify) {
            return self.certificate(month, line.number(0), line.number(1));
        }
        self.question(month, order, line)
            .map_or_else(Told::from, |_| Told::Passed)
    }
}
