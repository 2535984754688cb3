// A host that lends its four memories to each call, and notes what it is told, as a number and a spot: that is what people are
// told. The hosts of `trial` and `refusals` lend other memories, and look at other things after a call.
use book::contract::{BLANK, Contract, Offer};
use entry::kinds::Net;
use month::memories::Memories;
use month::phase::{Closed, Month, Open};
use scale::fault::Fault;
use scale::row::RowScale;

// What a call is told: a refusal's number and spot, or nothing. A number and a spot are what people are told, so no enum stands for them.
pub type Told = Result<(), (u16, usize)>;

pub const PASSED: Told = Ok(());

pub const EMPTY: Net = Net { units: 0 };

// 1 sells 10 kWh to 2, evenly.
pub const OFFER: Offer = Offer {
    number: 7,
    seller: 1,
    buyer: 2,
    submarket: 1,
    class: 1,
    source: 0,
    first: 1,
    last: 2,
    amount: 10,
};

pub fn told<T: Drop>(answer: Result<T, Fault>) -> Told {
    answer
        .map(|_| ())
        .map_err(|fault| (fault.reason.number(), fault.spot))
}

// The same of an opening, whose month is let go.
pub fn told_opening(answer: Result<Month<Open>, Fault>) -> Told {
    told(answer.map(Month::discard))
}

// The four memories, lent for a question.
pub fn lent<'a>(
    places: &'a [Contract],
    rows: &'a [u32],
    shortfalls: &'a [u64],
    board: &'a [Net],
) -> Memories<'a, Net> {
    Memories {
        places,
        rows,
        shortfalls,
        board,
    }
}

// The memories of 2 agents, 2 hours and 3 places.
#[derive(Drop)]
pub struct Host {
    pub places: [Contract; 3],
    pub rows: [u32; 6],
    pub shortfalls: [u64; 2],
    pub board: [Net; 16],
}

impl Host {
    pub fn new() -> Host {
        Host {
            places: [BLANK; 3],
            rows: [0; 6],
            shortfalls: [0; 2],
            board: [EMPTY; 16],
        }
    }

    pub fn open(&mut self) -> Result<Month<Open>, Fault> {
        Month::open(
            2,
            2,
            3,
            &self.places,
            &self.rows,
            &mut self.shortfalls,
            &mut self.board,
        )
    }

    pub fn offer(&mut self, month: &mut Month<Open>, offer: Offer) -> Told {
        told(month.offer(
            &mut self.places,
            &self.rows,
            &self.shortfalls,
            &self.board,
            offer,
        ))
    }

    pub fn confirm(
        &mut self,
        month: &Month<Open>,
        number: u16,
        agent: u16,
        weights: &[u32],
    ) -> Told {
        let scale = RowScale::new(weights);
        told(month.confirm(
            &mut self.places,
            &mut self.rows,
            &self.shortfalls,
            &mut self.board,
            number,
            agent,
            &scale,
        ))
    }

    pub fn end(&mut self, month: &Month<Open>, number: u16, agent: u16) -> Told {
        told(month.end(
            &mut self.places,
            &self.rows,
            &self.shortfalls,
            &mut self.board,
            number,
            agent,
        ))
    }

    pub fn tell(&mut self, month: &Month<Open>, agent: u16, kwh: u64) -> Told {
        told(month.tell(
            &mut self.places,
            &self.rows,
            &mut self.shortfalls,
            &mut self.board,
            agent,
            kwh,
        ))
    }

    fn memories(&self) -> Memories<'_, Net> {
        lent(&self.places, &self.rows, &self.shortfalls, &self.board)
    }

    pub fn lookup<P>(&self, month: &Month<P>, number: u16) -> Told {
        told(month.lookup(self.memories(), number))
    }

    pub fn turnover<P>(&self, month: &Month<P>, agent: u16) -> Told {
        told(month.turnover(self.memories(), agent))
    }

    pub fn position<P>(&self, month: &Month<P>, agent: u16, submarket: u16, hour: u16) -> Told {
        told(month.position(&self.board, agent, submarket, hour))
    }

    pub fn balance<P>(&self, month: &Month<P>, submarket: u16, hour: u16) -> Told {
        told(month.balance(&self.board, submarket, hour))
    }

    pub fn certificate(&self, month: &Month<Closed>, agent: u16, page: &mut [u8]) -> Told {
        told(month.certificate(self.memories(), agent, page))
    }
}
