// One way to write a sheet: its clauses sorted by their codes, each once, into a lent buffer.
#![tactic(auto)]

mod put;
mod read;
mod sort;
mod words;

ghost use Rattle.std.specs.Prelude.{◌≡◌, length};
ghost use Rattle.std.specs.Result.{result_and};
ghost use Rattle.judgement.specs.Facts.{ValidSheet};
ghost use Rattle.writer.specs.Canonical.{canonical, write_finding, writing, leaves};
ghost use Rattle.writer.specs.Promises.{OneOrder, WrittenWhen, OneWay};

use judgement::{Refusal, Written};
use put::Order;
use read::Clauses;

// What a merge does with the next words of its two lists: which it takes, and how far it goes on in the first and in the
// second.
#[derive(Clone, Copy)]
struct Meeting {
    taken: u64,
    first: usize,
    second: usize,
}

// Writes the sheet in the one way at the beginning of `out`. Refusals 1 to 4 of the sheet, and 25 where `out` is too short,
// leave it as it is. `order` and `oneway` speak of the definitions, and by the other three clauses of this call.
#[tactic(auto, using(crate::proofs::Order::one_order))]
pub fn write_sheet(sheet: &[u8], out: &mut [u8]) -> Written
    ensures answer { result ≡ writing sheet.now (length out.old) }
    ensures buffer { out.new ≡ leaves sheet.now out.old }
    ensures when { WrittenWhen sheet.now out.old result out.new }
    ensures order { OneOrder sheet.now }
    ensures oneway { ValidSheet sheet.now → OneWay sheet.now }
{
    write(sheet, out).into()
}

// How many bytes are written, or why none are.
#[tactic(auto, using(judgement::proofs::Facts::Layouts::alone_valid), unfolding(crate::specs::Canonical::write_finding, crate::specs::Canonical::leaves))]
fn write(sheet: &[u8], out: &mut [u8]) -> Result<usize, Refusal>
    ensures answer { result ≡ result_and (write_finding sheet.now (length out.old)) (Ok (length (canonical sheet.now))) }
    ensures buffer { out.new ≡ leaves sheet.now out.old }
{
    sheet::alone_finding(sheet)?;
    let clauses = Clauses::new(sheet);
    let mut words = [0u64; 4096];
    let mut temp = [0u64; 4096];
    let skip = clauses.shared();
    let words = clauses.sort_range(skip, 0, clauses.count(), &mut words, &mut temp);
    Order::new(clauses, words).write_if_room(out)
}
