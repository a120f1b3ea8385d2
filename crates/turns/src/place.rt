// Numbers at a place of a buffer, read and written. Nothing is tested: what is read or written is known to lie within. The bytes are put
// together in the number's own width, so that the compiler makes one load of them. What is public is total, so that other crates have such
// readers of their own.
ghost use Rattle.std.specs.Prelude.{◌≡◌, ◌+◌, ◌^◌, ◌≤◌, ◌<◌, length};
ghost use Rattle.judgement.specs.Number.{number_at};
ghost use Rattle.judgement.specs.Writer.{bytes_of};
ghost use Rattle.judgement.specs.Buffer.{patch};

#[tactic(auto, unfolding(judgement::specs::Number::number_at))]
pub(crate) fn u16_at(s: &[u8], at: usize) -> u16
    requires { at + 2 ≤ length s.now }
    ensures { result ≡ number_at s.now at 2 }
{
    u16::from_le_bytes([s[at], s[at + 1]])
}

pub(crate) fn u32_at(s: &[u8], at: usize) -> usize
    requires { at + 4 ≤ length s.now }
    ensures { (result ≡ number_at s.now at 4) × (result < 2 ^ 32) }
{
    u32::from_le_bytes([s[at], s[at + 1], s[at + 2], s[at + 3]]) as usize
}

// The bytes go one by one: each is a store within the buffer, and the compiler makes one of them.
pub(crate) fn put_u16(out: &mut [u8], at: usize, x: u16)
    requires { at + 2 ≤ length out.old }
    ensures { out.new ≡ patch at (bytes_of 2 x) out.old }
{
    let [low, high] = x.to_le_bytes();
    out[at] = low;
    out[at + 1] = high;
}

pub(crate) fn put_u32(out: &mut [u8], at: usize, x: u32)
    requires { at + 4 ≤ length out.old }
    ensures { out.new ≡ patch at (bytes_of 4 x) out.old }
{
    let [a, b, c, d] = x.to_le_bytes();
    out[at] = a;
    out[at + 1] = b;
    out[at + 2] = c;
    out[at + 3] = d;
}
