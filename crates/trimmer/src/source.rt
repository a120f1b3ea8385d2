// The record that is trimmed, beside its sheet, and the readers of its steps.
ghost use Rattle.std.specs.Prelude.{◌≡◌, true, ◌^◌, ◌<◌, length};
ghost use Rattle.judgement.specs.Demands.{IsBytes};
ghost use Rattle.judgement.specs.Facts.{Among};
ghost use Rattle.judgement.specs.Record.{steps, step, step_pairs_at};
ghost use Rattle.judgement.specs.Judgement.{judgement, passes};

use crate::read;

// A record that has passed, and where its pairs begin.
#[derive(Clone, Copy)]
pub(crate) struct Source<'a> {
    pub(crate) sheet: &'a [u8],
    pub(crate) record: &'a [u8],
    pub(crate) table: usize,
    ghost bytes: { IsBytes «record».now },
    ghost passed: { passes (judgement sheet.now «record».now) ≡ true },
    ghost pairs: { table ≡ step_pairs_at sheet.now },
}

impl<'a> Source<'a> {
    // How many bytes the body of step k has.
    pub(crate) fn body_size(&self, k: usize) -> usize
        requires { Among (steps self.now.«record».now) k }
        ensures { (result ≡ length (step self.now.sheet.now self.now.«record».now k)) × (result < 2 ^ 32) }
    {
        read::u32_at(self.record, self.table + 8 * (k - 1) + 4)
    }

    // The body of step k, lent on from where its pair says.
    pub(crate) fn body(&self, k: usize) -> &'a [u8]
        requires { Among (steps self.now.«record».now) k }
        ensures { result.now ≡ step self.now.sheet.now self.now.«record».now k }
    {
        let start = read::u32_at(self.record, self.table + 8 * (k - 1));
        let end = start + self.body_size(k);
        &self.record[start..end]
    }
}
