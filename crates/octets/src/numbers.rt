// Numbers in octets, the highest first.
ghost use Rattle.std.specs.Prelude.{◌≡◌, ℕ, ◌+◌, ◌^◌, ◌<◌, ◌≤◌, length};
ghost use Rattle.octets.specs.Numbers.{octets_of};
ghost use Rattle.octets.specs.Runs.{number, over_at};

use crate::runs::{part_at, put};

// A type for numbers of N octets.
pub trait Number<const N: usize>: Copy {
    // the number that it is
    ghost value: { Self → ℕ };

    fn of(octets: &[u8; N]) -> Self
        ensures value { value result ≡ number N 0 octets.now }
        ensures below { value result < 256 ^ N };

    // A number that N octets cannot hold is cut off at the high end.
    fn octets(self) -> [u8; N]
        ensures { result ≡ octets_of N (value self) };

    // a law, whose value is its proof: there is one for each number
    ghost apart: { (x y : Self) → value x ≡ value y → x ≡ y };
}

impl Number<2> for u16 {
    ghost value = { λ n. n };

    ghost apart = { λ _ _ same. same };

    fn of(octets: &[u8; 2]) -> u16 {
        u16::from_be_bytes(*octets)
    }

    fn octets(self) -> [u8; 2] {
        u16::to_be_bytes(self)
    }
}

impl Number<4> for u32 {
    ghost value = { λ n. n };

    ghost apart = { λ _ _ same. same };

    fn of(octets: &[u8; 4]) -> u32 {
        u32::from_be_bytes(*octets)
    }

    fn octets(self) -> [u8; 4] {
        u32::to_be_bytes(self)
    }
}

// 48 bits, the low ones of a u64.
impl Number<6> for u64 {
    ghost value = { λ n. n };

    ghost apart = { λ _ _ same. same };

    fn of(octets: &[u8; 6]) -> u64 {
        let [a, b, c, d, e, f] = *octets;
        u64::from_be_bytes([0, 0, a, b, c, d, e, f])
    }

    fn octets(self) -> [u8; 6] {
        let [_, _, a, b, c, d, e, f] = self.to_be_bytes();
        [a, b, c, d, e, f]
    }
}

// The number in N octets from a place on.
#[tactic(auto, using(crate::proofs::Laws::number_of_part))]
pub fn number_at<T: Number<N>, const N: usize>(octets: &[u8], at: usize) -> T
    requires { at + N ≤ length octets.now }
    ensures value { T.value result ≡ number N at octets.now }
    ensures below { T.value result < 256 ^ N }
{
    T::of(part_at(octets, at))
}

// Writes a number in N octets from a place on.
pub fn put_number<T: Number<N>, const N: usize>(out: &mut [u8], at: usize, n: T)
    requires { at + N ≤ length out.old }
    ensures { out.new ≡ over_at at (octets_of N (T.value n)) out.old }
{
    put(out, at, &n.octets());
}
