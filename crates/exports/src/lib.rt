// The calls with plain C types: a file is a pointer and a length, and the answer goes into a lent array.
#![tactic(auto)]

ghost use Rattle.std.specs.Prelude.{◌≡◌, length};
ghost use Rattle.judgement.specs.Judgement.{judgement, shown_part};
ghost use Rattle.judgement.specs.Place.{Inside};
ghost use Rattle.writer.specs.Canonical.{writing, leaves};
ghost use Rattle.search.specs.Answer.{found};
ghost use Rattle.trimmer.specs.Trim.{trimming, marks_left, output_left};
ghost use Rattle.turns.specs.Turning.{lent, turning, left};
ghost use Rattle.exports.specs.Numbers.{answer_numbers, part_numbers, written_numbers, found_numbers, turned_numbers};

use judgement::{Answer, Part, Written};
use search::Found;
use turns::Turned;

// What a call answers, as the numbers of its array. By functions, since an `impl From<Answer> for [u64; 6]` names no type of this
// crate, which the language refuses.
fn answer_numbers(a: Answer) -> [u64; 6]
    ensures { result ≡ answer_numbers a }
{
    [
        u64::from(a.number),
        u64::from(a.place),
        a.cost,
        u64::from(a.open_count),
        u64::from(a.step_count),
        a.gap,
    ]
}

// 1 for the sheet, 0 for the record.
fn part_numbers(p: Part) -> [u64; 3]
    ensures { result ≡ part_numbers p }
{
    [u64::from(p.in_sheet), p.start as u64, p.size as u64]
}

fn written_numbers(w: Written) -> [u64; 3]
    ensures { result ≡ written_numbers w }
{
    [u64::from(w.number), u64::from(w.place), w.length as u64]
}

// 1 where there is a plan, and 1 where the search has ended.
fn found_numbers(f: Found) -> [u64; 7]
    ensures { result ≡ found_numbers f }
{
    [
        u64::from(f.number),
        u64::from(f.place),
        u64::from(f.found),
        f.plan,
        f.choices,
        u64::from(f.ended),
        f.floor,
    ]
}

fn turned_numbers(t: Turned) -> [u64; 3]
    ensures { result ≡ turned_numbers t }
{
    [u64::from(t.number), t.place as u64, t.total as u64]
}

// Number, place, cost, open count, step count and gap of the answer to the two files.
#[unsafe(no_mangle)]
pub extern "C" fn plan_judge(sheet: &[u8], record: &[u8], answer: &mut [u64; 6])
    ensures { answer.new ≡ answer_numbers (judgement sheet.now «record».now) }
{
    *answer = answer_numbers(checker::judge(sheet, record));
}

// Where the literals of a step stand: 1 for the sheet or 0 for the record, the first byte, the number of bytes.
#[unsafe(no_mangle)]
pub extern "C" fn plan_show(sheet: &[u8], record: &[u8], step: u32, part: &mut [u64; 3])
    ensures part { part.new ≡ part_numbers (shown_part sheet.now «record».now step) }
    ensures inside { Inside sheet.now «record».now (shown_part sheet.now «record».now step) }
{
    *part = part_numbers(checker::shown_part(sheet, record, step));
}

// Writes the sheet in the one way at the beginning of `out`: number, place and the number of bytes written. What these and the
// buffer come to is in the contract of `writer::write_sheet`.
#[unsafe(no_mangle)]
pub extern "C" fn plan_write_sheet(sheet: &[u8], out: &mut [u8], answer: &mut [u64; 3])
    ensures answer { answer.new ≡ written_numbers (writing sheet.now (length out.old)) }
    ensures buffer { out.new ≡ leaves sheet.now out.old }
{
    *answer = written_numbers(writer::write_sheet(sheet, out));
}

// Number, place, 1 where there is a plan, the plan, choices, 1 where the search has ended, and the floor. What these promise is in
// the contract of `search::search`.
#[unsafe(no_mangle)]
pub extern "C" fn plan_search(sheet: &[u8], budget: u64, answer: &mut [u64; 7])
    ensures { answer.new ≡ found_numbers (found sheet.now budget) }
{
    *answer = found_numbers(search::search(sheet, budget));
}

// Trims the record: marks at the beginning of `marks`, the kept steps as a record at the beginning of `out`; number, place and the
// number of bytes written there. What these and the buffers come to is in the contract of `trimmer::trim`.
#[unsafe(no_mangle)]
pub extern "C" fn plan_trim(
    sheet: &[u8],
    record: &[u8],
    marks: &mut [u8],
    out: &mut [u8],
    answer: &mut [u64; 3],
)
    ensures answer { answer.new ≡ written_numbers (trimming sheet.now «record».now (length marks.old) (length out.old)) }
    ensures marked { marks.new ≡ marks_left sheet.now «record».now marks.old }
    ensures buffer { out.new ≡ output_left sheet.now «record».now (length marks.old) out.old }
{
    *answer = written_numbers(trimmer::trim(sheet, record, marks, out));
}

// Turns variables: number, place and the broken total. What these and the three buffers come to is in the contract of `turns::turn`.
#[unsafe(no_mangle)]
pub extern "C" fn plan_turn(
    sheet: &[u8],
    assignment: &mut [u8],
    turns: &[u16],
    index: &mut [u8],
    counts: &mut [u8],
    answer: &mut [u64; 3],
)
    ensures answer { answer.new ≡ turned_numbers (turning sheet.now turns.now (lent assignment.old index.old counts.old)) }
    ensures buffers { lent assignment.new index.new counts.new
        ≡ left sheet.now turns.now (lent assignment.old index.old counts.old) }
{
    *answer = turned_numbers(turns::turn(sheet, assignment, turns, index, counts));
}
