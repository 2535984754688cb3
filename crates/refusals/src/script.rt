// A script, line by line.
use crate::order::Order;
use crate::told::Told;

// A letter and its numbers; `wanted` is where those begin that the line must be told. The numbers lie in the line itself, so that
// reading one asks for no memory; those after the sixteenth are passed over.
#[derive(Clone, Copy, Debug)]
pub struct Line {
    pub at: u32,
    letter: u8,
    numbers: [u64; 16],
    count: usize,
    wanted: usize,
}

const BLANK: Line = Line {
    at: 0,
    letter: 0,
    numbers: [0; 16],
    count: 0,
    wanted: 0,
};

// A type of fields that a line writes. A number too large for it is its largest.
pub trait Field: TryFrom<u64> + Copy {
    const MOST: Self;
}

impl Field for u16 {
    const MOST: u16 = u16::MAX;
}

impl Field for u32 {
    const MOST: u32 = u32::MAX;
}

impl Field for u64 {
    const MOST: u64 = u64::MAX;
}

impl Field for usize {
    const MOST: usize = usize::MAX;
}

impl Line {
    // Reads one more byte of the line.
    fn take(&mut self, byte: u8) {
        match byte {
            b' ' => self.count = self.count.wrapping_add(1),
            b'=' => {
                self.count = self.count.wrapping_sub(1);
                self.wanted = self.count;
            }
            b'0'..=b'9' => {
                if let Some(number) = self.numbers.get_mut(self.count.wrapping_sub(1)) {
                    *number = number
                        .wrapping_mul(10)
                        .wrapping_add(u64::from(byte.wrapping_sub(b'0')));
                }
            }
            _ => self.letter = byte,
        }
    }

    // A number of the line, from 0; 0 where there is none.
    pub fn number<T: Field>(&self, i: usize) -> T
    where
        T::Error: Drop,
    {
        let number = self.numbers.get(i).copied().unwrap_or_default();
        T::try_from(number).unwrap_or(T::MOST)
    }

    // How many numbers come before those that the line must be told.
    pub fn given(&self) -> usize {
        self.wanted
    }

    pub fn wanted(&self) -> Told {
        Told::from((
            self.number(self.wanted),
            self.number(self.wanted.wrapping_add(1)),
        ))
    }
}

// What is left of a script, and the line that was read last.
#[derive(Drop)]
pub struct Script<'a> {
    rest: &'a [u8],
    at: u32,
    pub line: Line,
}

impl<'a> Script<'a> {
    pub fn new(text: &'a [u8]) -> Script<'a> {
        Script {
            rest: text,
            at: 0,
            line: BLANK,
        }
    }

    // Reads the next line that has a letter, whichever byte that is, and answers its order; at the end, a line without one. What
    // follows `#` is passed over.
    pub fn next_order(&mut self) -> Order {
        self.line = BLANK;
        let mut is_remark = false;
        let text = self.rest;
        for (i, byte) in text.iter().enumerate() {
            if *byte == b'\n' {
                self.at = self.at.wrapping_add(1);
                is_remark = false;
                if self.line.letter != 0 {
                    self.line.at = self.at;
                    self.rest = text.get(i.wrapping_add(1)..text.len()).unwrap_or(&[]);
                    return Order::from(self.line.letter);
                }
            } else if *byte == b'#' {
                is_remark = true;
            } else if !is_remark {
                self.line.take(*byte);
            }
        }
        self.rest = &[];
        Order::from(self.line.letter)
    }
}
