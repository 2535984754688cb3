// The certificate line.
ghost use Rattle.std.specs.Prelude.{◌≡◌, ◌≤◌, length};
ghost use Rattle.page.specs.Page.{Fronted};
ghost use Rattle.month.specs.Line.{certificate_line};

use page::pen::Pen;

// Writes the line of an agent to the front of a page that has room for it, and answers its length. The bounds of sold and bought
// are those of a turnover, whose numbers are as wide as any.
#[tactic(auto, using(page::proofs::Over::short_5, page::proofs::Over::short_12))]
pub(crate) fn put_line(page: &mut [u8], agent: u16, sold: u64, bought: u64) -> usize
    requires room { 64 ≤ length page.old }
    requires sold { sold ≤ 256000000000 }
    requires bought { bought ≤ 256000000000 }
    ensures { Fronted (certificate_line agent sold bought) page.old page.new result }
{
    let mut pen = Pen::new(page);
    pen.text(b"agent ");
    pen.number(agent);
    pen.text(b" sold ");
    pen.number(sold);
    pen.text(b" bought ");
    pen.number(bought);
    pen.byte(b'\n');
    pen.finish()
}
