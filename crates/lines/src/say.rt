// Replies written into memory that is lent, with no allocation.
ghost use Rattle.std.specs.Prelude.{◌<◌, ◌≤◌, length, decimal};
ghost use Rattle.std.specs.Fmt.{signed_decimal};
ghost use Rattle.page.specs.Page.{Fronted, HasRoom, SamePage, Wrote};
ghost use Rattle.lines.specs.Spoken.{spoken, spoken_line};

use crate::reply::Reply;
use page::pen::Pen;

// Room for every line that is answered.
pub const ROOM: usize = 64;

// Writes a number of one or two digits: the buffer that a longer one is made in takes longer than they do, and so does a call.
#[inline(always)]
fn put_short(pen: &mut Pen, n: u64)
    requires short { n < 100 }
    requires room { HasRoom pen.old 2 }
    ensures same_page { SamePage pen.old pen.new }
    ensures wrote { Wrote pen.old (decimal n) pen.new }
{
    if n < 10 {
        pen.byte(b'0' + n as u8);
    } else {
        pen.byte(b'0' + (n / 10) as u8);
        pen.byte(b'0' + (n % 10) as u8);
    }
}

// Writes the number of a refusal, or its spot.
#[tactic(auto, using(page::proofs::Over::short_20))]
fn put_number(pen: &mut Pen, n: u64)
    requires { HasRoom pen.old 20 }
    ensures same_page { SamePage pen.old pen.new }
    ensures wrote { Wrote pen.old (decimal n) pen.new }
{
    if n < 100 {
        put_short(pen, n);
    } else {
        pen.number(n);
    }
}

// Writes a position, a negative one with its sign in front.
#[tactic(auto, using(page::proofs::Over::signed_20))]
#[inline(always)]
fn put_position(pen: &mut Pen, kwh: i64)
    requires { HasRoom pen.old 20 }
    ensures same_page { SamePage pen.old pen.new }
    ensures wrote { Wrote pen.old (signed_decimal kwh) pen.new }
{
    match kwh {
        -99..=99 => {
            if kwh < 0 {
                pen.byte(b'-');
            }
            put_short(pen, kwh.unsigned_abs());
        }
        _ => pen.number(kwh),
    }
}

// Writes a reply without its line feed.
#[tactic(auto, using(page::proofs::Over::short_5, page::proofs::Over::short_20, page::proofs::Over::signed_20))]
#[inline(always)]
fn put_words(pen: &mut Pen, reply: Reply)
    requires { HasRoom pen.old 64 }
    ensures same_page { SamePage pen.old pen.new }
    ensures wrote { Wrote pen.old (spoken reply) pen.new }
    ensures room { HasRoom pen.new 1 }
{
    match reply {
        Reply::Done => pen.text(b"ok"),
        Reply::Refused { number, spot } => {
            pen.text(b"no ");
            put_number(pen, u64::from(number));
            pen.text(b" ");
            put_number(pen, spot as u64);
        }
        Reply::At { net } => {
            pen.text(b"at ");
            put_position(pen, net);
        }
        Reply::AtBySource {
            conventional,
            incentivised,
        } => {
            pen.text(b"at ");
            put_position(pen, conventional);
            pen.text(b" ");
            put_position(pen, incentivised);
        }
    }
}

// Writes a reply and its line feed to the front of the page, and answers the count of bytes. That the count fits the page is said
// again by whoever hands it on, since a number has no type to hold it.
pub fn put_reply(page: &mut [u8; ROOM], reply: Reply) -> usize
    ensures put { Fronted (spoken_line reply) page.old page.new result }
    ensures within { result ≤ 64 }
{
    let mut pen = Pen::new(page);
    put_words(&mut pen, reply);
    pen.byte(b'\n');
    pen.finish()
}
