// New numbers: how many steps have marks up to one of them. Counting from the first step for each would be quadratic, so counts
// are sampled, one for every w-th step, into the part of the output that the pairs will take: it is not needed before.
ghost use Rattle.std.specs.Prelude.{◌≡◌, ◌+◌, ◌-◌, ◌*◌, ◌/◌, ◌^◌, ◌≤◌, ◌<◌, length};
ghost use Rattle.judgement.specs.Scan.{count_of};
ghost use Rattle.trimmer.specs.Work.{marked, Sampled};

// How many of the steps after `from` up to `to` have a mark.
pub(crate) fn count_marks(marks: &[u8], from: usize, to: usize) -> usize
    requires { (from ≤ to) × (to ≤ length marks.now) }
    ensures { count_of (marked marks.now) from + result ≡ count_of (marked marks.now) to }
{
    let mut n = 0;
    for x in &marks[from..to] {
        n += usize::from(*x == 1);
    }
    n
}

// The counts before every w-th step, into a table that has room for `room` of them.
pub(crate) fn write_samples(marks: &[u8], w: usize, room: usize, table: &mut [u8])
    requires { (length marks.now < 2 ^ 29) × (1 ≤ w) × (w < 2 ^ 30) × (length marks.now ≤ room * w) × (4 * room ≤ length table.old) }
    ensures { Sampled table.new marks.now w × (length table.new ≡ length table.old) }
{
    let mut n = 0;
    for i in 0..marks.len().div_ceil(w) {
        let pos = i * w;
        layout::put_u32(&mut table[4 * i..], n as u32);
        n += count_marks(marks, pos, marks.len().min(pos + w));
    }
}

// Which sample is the last before step x. Where half of the steps are kept there is one for each step, and no division is needed
// to find it.
pub(crate) fn sample_of(w: usize, x: usize) -> usize
    requires { (1 ≤ w) × (1 ≤ x) }
    ensures { result ≡ (x - 1) / w }
{
    if w == 1 {
        return x - 1;
    }
    (x - 1) / w
}
