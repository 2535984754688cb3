// What a line can ask for. The fields have the order of the line's numbers. Kind, class and source are numbers too: a line
// may name any, and the call that it asks for refuses it, with the field's spot. The fields of an offer stand here again, since
// lines know no book.
#[derive(Clone, Copy, PartialEq, Eq, Debug)]
pub enum Command {
    Open {
        agents: u16,
        hours: u16,
        places: u16,
        kind: u16,
    },
    Offer {
        number: u16,
        seller: u16,
        buyer: u16,
        submarket: u16,
        class: u16,
        source: u16,
        first: u16,
        last: u16,
        amount: u32,
    },
    Confirm {
        number: u16,
        agent: u16,
    },
    End {
        number: u16,
        agent: u16,
    },
    Tell {
        agent: u16,
        kwh: u64,
    },
    Position {
        agent: u16,
        submarket: u16,
        hour: u16,
    },
    Close,
    Certificate {
        agent: u16,
    },
}
