// The readers of inner loops. They test nothing: what they read is known to be there. What is public is total, so that other crates
// have such readers of their own. The library has `from_le_bytes` at each type and by no trait.
ghost use Rattle.std.specs.Prelude.{◌≡◌, ◌+◌, ◌*◌, ◌^◌, ◌≤◌, ◌<◌, length};
ghost use Rattle.judgement.specs.Number.{number_at};
ghost use Rattle.judgement.specs.Step.{literal_count, cited};

pub(crate) fn u16_at(part: &[u8], at: usize) -> u16
    requires { at + 2 ≤ length part.now }
    ensures { result ≡ number_at part.now at 2 }
{
    u16::from_le_bytes([part[at], part[at + 1]])
}

pub(crate) fn u32_at(part: &[u8], at: usize) -> usize
    requires { at + 4 ≤ length part.now }
    ensures { (result ≡ number_at part.now at 4) × (result < 2 ^ 32) }
{
    u32::from_le_bytes([part[at], part[at + 1], part[at + 2], part[at + 3]]) as usize
}

// Where the tail of a step's body begins: behind its literals.
pub(crate) fn tail_at(b: &[u8]) -> usize
    requires { 12 ≤ length b.now }
    ensures { (result ≡ 12 + 2 * literal_count b.now) × (result < 2 ^ 18) }
{
    12 + 2 * (u16_at(b, 2) as usize)
}

// The first of the steps that a body of kind 4 cites, at j = 0, or the second, at j = 1.
pub(crate) fn cited_at(b: &[u8], j: usize) -> usize
    requires { (12 + 2 * literal_count b.now + 10 ≡ length b.now) × (j < 2) }
    ensures { (result ≡ cited b.now (j + 1)) × (result < 2 ^ 32) }
{
    u32_at(b, tail_at(b) + 4 * j)
}
