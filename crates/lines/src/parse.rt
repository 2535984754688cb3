// Lines as commands.
ghost use Rattle.std.specs.Prelude.{◌≡◌, ℕ, ◌^◌, ◌<◌, ◌≤◌, List, [], length, decimal, MatchOption, ◌≢◌};
ghost use Rattle.std.specs.Option.{SomeIff};
ghost use Rattle.lines.specs.Grammar.{spelled, Only, AllWide, AllShort, Means, Parsed, Exact, Within};

use crate::command::Command;
use crate::hold::LONGEST;
use arrayvec::ArrayVec;

// The number that the whole of `text` writes: digits alone, with no zero in front. They are read here, since the library reads a
// number from a `str` alone, and to see that the bytes are one took longer than to read a number of few digits.
fn number(text: &[u8]) -> Option<u64>
    ensures { MatchOption result ((n : ℕ) → n < 2 ^ 64 → text.now ≢ decimal n) (λ n. text.now ≡ decimal n) }
{
    match *text.first()? {
        b'0' if text.len() > 1 => None,
        _ => {
            let mut number = 0u64;
            for b in text {
                let digit = char::from(*b).to_digit(10)?;
                number = number.checked_mul(10)?.checked_add(u64::from(digit))?;
            }
            Some(number)
        }
    }
}

// Puts the numbers of a line after its letter, at most nine, each after one space, into the caller's empty list: nine numbers
// that are handed out would be copied on the way.
fn read_numbers(text: &[u8], numbers: &mut ArrayVec<u64, 9>) -> Option<()>
    requires { numbers.old.items ≡ [] }
    ensures { MatchOption result ((ns : List ℕ) → AllWide ns → length ns ≤ 9 → text.now ≢ spelled ns) (λ _. Only text.now numbers.new.items) }
{
    // What begins otherwise is looked at no further.
    if text.first().is_some_and(|b| *b != b' ') {
        return None;
    }
    let mut words = text.split(|b| *b == b' ');
    // Nothing stands before the first space.
    words.next()?;
    for word in words {
        numbers.try_push(number(word)?).ok()?;
    }
    Some(())
}

// A number of 16 bits.
fn short(n: u64) -> Option<u16>
    ensures { SomeIff result (n < 2 ^ 16) n }
{
    u16::try_from(n).ok()
}

// The numbers, if there are N of them and each is below 2^16. No command takes more than eight, and so few fit in memory.
fn shorts<const N: usize>(numbers: &[u64]) -> Option<[u16; N]>
    requires { N ≤ 8 }
    ensures { MatchOption result (length numbers.now ≡ N → AllShort numbers.now → ⊥) (λ a. (a ≡ numbers.now) × (length a ≡ N) × AllShort a) }
{
    let mut shorts = ArrayVec::new();
    for n in numbers {
        shorts.try_push(short(*n)?).ok()?;
    }
    shorts.into_inner().ok()
}

fn open(numbers: &[u64]) -> Option<Command>
    ensures { Means 77 numbers.now result }
{
    let [agents, hours, places, kind] = shorts::<4>(numbers)?;
    Some(Command::Open {
        agents,
        hours,
        places,
        kind,
    })
}

fn offer(numbers: &[u64]) -> Option<Command>
    ensures { Means 79 numbers.now result }
{
    let (amount, fields) = numbers.split_last()?;
    let [number, seller, buyer, submarket, class, source, first, last] = shorts::<8>(fields)?;
    Some(Command::Offer {
        number,
        seller,
        buyer,
        submarket,
        class,
        source,
        first,
        last,
        amount: u32::try_from(*amount).ok()?,
    })
}

fn confirm(numbers: &[u64]) -> Option<Command>
    ensures { Means 67 numbers.now result }
{
    let [number, agent] = shorts::<2>(numbers)?;
    Some(Command::Confirm { number, agent })
}

// As for a confirmation but for the command named: a function over the constructor would be no shorter.
fn finish(numbers: &[u64]) -> Option<Command>
    ensures { Means 69 numbers.now result }
{
    let [number, agent] = shorts::<2>(numbers)?;
    Some(Command::End { number, agent })
}

fn tell(numbers: &[u64]) -> Option<Command>
    ensures { Means 83 numbers.now result }
{
    let [agent, kwh] = numbers else {
        return None;
    };
    Some(Command::Tell {
        agent: short(*agent)?,
        kwh: *kwh,
    })
}

fn position(numbers: &[u64]) -> Option<Command>
    ensures { Means 80 numbers.now result }
{
    let [agent, submarket, hour] = shorts::<3>(numbers)?;
    Some(Command::Position {
        agent,
        submarket,
        hour,
    })
}

fn close(numbers: &[u64]) -> Option<Command>
    ensures { Means 90 numbers.now result }
{
    numbers.is_empty().then_some(Command::Close)
}

fn certificate(numbers: &[u64]) -> Option<Command>
    ensures { Means 84 numbers.now result }
{
    let [agent] = shorts::<1>(numbers)?;
    Some(Command::Certificate { agent })
}

// The command of a letter and the numbers after it. A match, since it is the grammar: the letter comes from the line.
fn meant(letter: u8, numbers: &[u64]) -> Option<Command>
    ensures { Means letter numbers.now result }
{
    match letter {
        b'M' => open(numbers),
        b'O' => offer(numbers),
        b'C' => confirm(numbers),
        b'E' => finish(numbers),
        b'S' => tell(numbers),
        b'P' => position(numbers),
        b'Z' => close(numbers),
        b'T' => certificate(numbers),
        _ => None,
    }
}

// The command that is written on `line`, without its line feed.
pub fn parse_line(line: &[u8]) -> Option<Command>
    ensures reads { Parsed line.now result }
    ensures exact { Exact line.now result }
    ensures within { Within line.now result }
{
    // No command is so long, and of a longer text no more is looked at.
    if line.len() > LONGEST {
        return None;
    }
    let (letter, rest) = line.split_first()?;
    let mut numbers = ArrayVec::new();
    read_numbers(rest, &mut numbers)?;
    meant(*letter, numbers.as_slice())
}
