// Signed numbers: each operation has the bounds that keep it in 64 bits. Those that a loop over literals calls become no branch, which
// the processor would have to guess: the signs of literals and of remainders follow no pattern.
ghost use Rattle.std.specs.Prelude.{◌≡◌, ◌+◌, ◌*◌, ◌^◌, ◌<◌, ◌≤◌, pos, ◌+ℤ◌, ◌-ℤ◌, if◌then◌else◌, nat_eq, unsigned_abs};
ghost use Rattle.judgement.specs.Integers.{below_zero, rounded_up};
ghost use Rattle.checker.specs.Weighing.{far_of};

// Where the number of a variable that the step settles begins: so far from 0 that it stays on its side.
const FAR: i64 = 1 << 59;

// A number that is not negative.
pub(crate) fn natural(x: u64) -> i64
    requires { x < 2 ^ 63 }
    ensures { result ≡ pos x }
{
    x as i64
}

// Far above 0 where c is positive, so that falsifying it makes its variable false, and else far below.
#[tactic(auto, using(crate::proofs::Far::far_above, crate::proofs::Far::far_below))]
pub(crate) fn far(c: usize) -> i64
    ensures { result ≡ far_of c }
{
    if c % 2 == 0 {
        return FAR;
    }
    -FAR
}

// The first of two numbers, or the second: by its place in an array, since the compiler would make a branch of a test: with one,
// 1 MB of long steps of kind 5 took 4.1 ms, and 2.5 without.
pub(crate) fn one_of(i: usize, x: i64, y: i64) -> i64
    requires { i < 2 }
    ensures { result ≡ (if nat_eq i 0 then x else y) }
{
    let two = [x, y];
    two[i]
}

pub(crate) fn plus(x: i64, y: i64) -> i64
    requires { (unsigned_abs x < 2 ^ 62) × (unsigned_abs y < 2 ^ 62) }
    ensures { result ≡ x +ℤ y }
{
    x + y
}

// The remainder x after a literal of a clause of weight y: w is y where the literal is negative, and 0 where it is not.
pub(crate) fn shifted(x: i64, w: u64, y: u64) -> i64
    requires { (unsigned_abs x < 2 ^ 60) × (w < 2 ^ 16) × (y < 2 ^ 16) }
    ensures { result ≡ x +ℤ pos (2 * w) -ℤ pos y }
{
    x + (2 * w) as i64 - y as i64
}

// What the total gains by it where the remainder goes from x to z.
pub(crate) fn gained(x: i64, z: i64, w: u64) -> i64
    requires { (unsigned_abs x < 2 ^ 61) × (unsigned_abs z < 2 ^ 61) × (w < 2 ^ 16) }
    ensures { result ≡ below_zero z -ℤ below_zero x -ℤ pos w }
{
    z.min(0) - x.min(0) - w as i64
}

// The least number whose d-fold is not below the total.
pub(crate) fn rounded_up(total: i64, d: u64) -> u64
    requires { (unsigned_abs total < 2 ^ 62) × (1 ≤ d) × (d < 2 ^ 16) }
    ensures { (result ≡ rounded_up total d) × (result < 2 ^ 63) }
{
    let e = d as i64;
    ((total.max(0) + (e - 1)) / e) as u64
}
