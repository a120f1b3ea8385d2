// The line that is printed for an answer, put at the beginning of a lent buffer. What stands behind it stays.
#![tactic(auto)]

ghost use Rattle.std.specs.Prelude.{◌≡◌, ℕ, List, [], ◌++◌, ◌+◌, ◌≤◌, length, take};
ghost use Rattle.lines.specs.declared.TheConstants.{LINE};
ghost use Rattle.io.specs.Counts.{IsPrefixLen};
ghost use Rattle.judgement.specs.Buffer.{over};
ghost use Rattle.lines.specs.Lines.{decimal_of, least_line, none_line, within_line, refused_line, line_of};

use judgement::{Answer, NONE};
use std::marker::Model;

// A buffer of this many bytes holds every line.
pub const LINE: usize = 112;

// A line under way: the first `len` of the bytes. No vector of a fixed capacity from a library: it would be one more to believe.
#[derive(Drop)]
struct Text {
    bytes: [u8; LINE],
    len: usize,
}

impl Model for Text {
    ghost Value = { List ℕ };

    ghost view = { λ l. take l.len l.bytes };

    ghost invariant = { λ l. l.len ≤ LINE };
}

impl Text {
    fn new() -> Text
        ensures { result ≡ [] }
    {
        Text {
            bytes: [0; LINE],
            len: 0,
        }
    }

    fn put(&mut self, word: &[u8])
        requires { length self.old + length word.now ≤ LINE }
        ensures { self.new ≡ self.old ++ word.now }
    {
        let end = self.len + word.len();
        self.bytes[self.len..end].copy_from_slice(word);
        self.len = end;
    }

    // Puts `word` and then n, which has 20 digits at most. By `decimal`, whose contract says which digits, as a formatter's does not.
    fn put_field(&mut self, word: &[u8], n: u64)
        requires { length self.old + length word.now + 20 ≤ LINE }
        ensures bytes { self.new ≡ self.old ++ word.now ++ decimal_of n }
        ensures size { length self.new ≤ length self.old + length word.now + 20 }
    {
        self.put(word);
        let mut digits = [0u8; 20];
        let k = io::decimal(n, &mut digits);
        self.put(&digits[..k]);
    }

    fn bytes(&self) -> &[u8]
        ensures { result.now ≡ self.now }
    {
        &self.bytes[..self.len]
    }
}

#[tactic(auto, unfolding(crate::specs::Lines::least_line))]
fn least_line(cost: u64, opens: u32, steps: u32) -> Text
    ensures { result ≡ least_line cost opens steps }
{
    let mut least = Text::new();
    least.put_field(b"least ", cost);
    least.put_field(b" open ", u64::from(opens));
    least.put_field(b" steps ", u64::from(steps));
    least.put(b"\n");
    least
}

#[tactic(auto, unfolding(crate::specs::Lines::none_line))]
fn none_line(steps: u32) -> Text
    ensures { result ≡ none_line steps }
{
    let mut none = Text::new();
    none.put_field(b"none open 0 steps ", u64::from(steps));
    none.put(b"\n");
    none
}

#[tactic(auto, unfolding(crate::specs::Lines::within_line))]
fn within_line(gap: u64, cost: u64, opens: u32, steps: u32) -> Text
    ensures { result ≡ within_line gap cost opens steps }
{
    let mut within = Text::new();
    within.put_field(b"within ", gap);
    within.put_field(b" cost ", cost);
    within.put_field(b" open ", u64::from(opens));
    within.put_field(b" steps ", u64::from(steps));
    within.put(b"\n");
    within
}

#[tactic(auto, unfolding(crate::specs::Lines::refused_line))]
fn refused_line(number: u32, place: u32) -> Text
    ensures { result ≡ refused_line number place }
{
    let mut refused = Text::new();
    refused.put_field(b"refused ", u64::from(number));
    refused.put_field(b" at ", u64::from(place));
    refused.put(b"\n");
    refused
}

#[tactic(auto, unfolding(crate::specs::Lines::line_of, judgement::specs::Meaning::none))]
fn line_of(a: Answer) -> Text
    ensures { result ≡ line_of a }
{
    if a.number != 0 {
        return refused_line(a.number, a.place);
    }
    if a.gap != 0 {
        return within_line(a.gap, a.cost, a.open_count, a.step_count);
    }
    if a.cost == NONE {
        return none_line(a.step_count);
    }
    least_line(a.cost, a.open_count, a.step_count)
}

// Puts the line of an answer, and answers its length. The last clause lets a caller lend `&out[..r]`.
#[tactic(auto, using(crate::proofs::Texts::counts))]
pub fn line(a: Answer, out: &mut [u8; LINE]) -> usize
    ensures size { result ≡ length (line_of a) }
    ensures bytes { out.new ≡ over (line_of a) out.old }
    ensures prefix_len { IsPrefixLen result out.new }
{
    let line = line_of(a);
    let text = line.bytes();
    out[..text.len()].copy_from_slice(text);
    text.len()
}
