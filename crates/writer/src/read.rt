// The readers of inner loops. They test nothing: what they read is known to be there.
ghost use Rattle.std.specs.Prelude.{◌≡◌, ◌+◌, ◌≤◌, length};
ghost use Rattle.judgement.specs.Number.{number_at};
ghost use Rattle.judgement.specs.Sheet.{clauses, clause};
ghost use Rattle.judgement.specs.Facts.{Among, ValidSheet};
ghost use Rattle.judgement.specs.Demands.{IsBytes};
ghost use Rattle.writer.specs.Words.{Known};

// The clauses of a valid sheet, whose table of pairs begins at `table`.
#[derive(Clone, Copy)]
pub(crate) struct Clauses<'a> {
    pub(crate) sheet: &'a [u8],
    table: usize,
    ghost known: { Known sheet.now table },
    ghost bytes: { IsBytes sheet.now },
}

impl<'a> Clauses<'a> {
    pub(crate) fn new(sheet: &'a [u8]) -> Self
        requires { ValidSheet sheet.now }
        ensures { result.sheet.now ≡ sheet.now }
    {
        Clauses {
            sheet,
            table: sheet::clause_pairs_at(sheet) as usize,
        }
    }

    pub(crate) fn count(&self) -> usize
        ensures { result ≡ clauses self.now.sheet.now }
    {
        sheet::clause_count(self.sheet) as usize
    }

    // The body of clause k.
    pub(crate) fn clause(&self, k: usize) -> &'a [u8]
        requires { Among (clauses self.now.sheet.now) k }
        ensures { result.now ≡ clause self.now.sheet.now k }
    {
        let pair = self.table + 8 * (k - 1);
        let start = u32_at(self.sheet, pair) as usize;
        let end = start + u32_at(self.sheet, pair + 4) as usize;
        &self.sheet[start..end]
    }
}

// The library has `from_le_bytes` at each type and not by a trait: one function for the three would need a trait of its own.
pub(crate) fn u16_at(part: &[u8], at: usize) -> u16
    requires { at + 2 ≤ length part.now }
    ensures { result ≡ number_at part.now at 2 }
{
    u16::from_le_bytes([part[at], part[at + 1]])
}

fn u32_at(part: &[u8], at: usize) -> u32
    requires { at + 4 ≤ length part.now }
    ensures { result ≡ number_at part.now at 4 }
{
    u32::from_le_bytes([part[at], part[at + 1], part[at + 2], part[at + 3]])
}

pub(crate) fn u64_at(part: &[u8], at: usize) -> u64
    requires { at + 8 ≤ length part.now }
    ensures { result ≡ number_at part.now at 8 }
{
    u64::from_le_bytes([
        part[at],
        part[at + 1],
        part[at + 2],
        part[at + 3],
        part[at + 4],
        part[at + 5],
        part[at + 6],
        part[at + 7],
    ])
}
