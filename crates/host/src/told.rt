// How an answer is told to a host: a word, and out numbers. An entry has a name for each of its numbers, as C wants it: so there is a
// function for each count of them.
ghost use Rattle.std.specs.Prelude.{◌≡◌, List, [], ◌∷◌, ℕ, replicate};
ghost use Rattle.bits.specs.Refused.{refused, given, no_values, number_values, flag_values, extent_values};
ghost use Rattle.host.specs.Reports.{Reports, filled};

use bits::{Extent, Refusal};

// The word of what is accepted.
pub const DONE: u32 = 0;

// What is told to a host in N numbers.
pub trait Told<const N: usize> {
    // As the definitions list them; a number that a kind does not have is 0.
    ghost values: { Self → List ℕ };

    fn told(self) -> [u64; N]
        ensures { result ≡ filled (replicate N 0) (values self) };
}

impl Told<1> for bool {
    ghost values = { flag_values };

    fn told(self) -> [u64; 1] {
        [self as u64]
    }
}

impl Told<1> for u8 {
    ghost values = { number_values };

    fn told(self) -> [u64; 1] {
        [self as u64]
    }
}

impl Told<1> for u16 {
    ghost values = { number_values };

    fn told(self) -> [u64; 1] {
        [self as u64]
    }
}

impl Told<1> for u32 {
    ghost values = { number_values };

    fn told(self) -> [u64; 1] {
        [self as u64]
    }
}

impl Told<1> for u64 {
    ghost values = { number_values };

    fn told(self) -> [u64; 1] {
        [self]
    }
}

impl Told<2> for Extent {
    ghost values = { extent_values };

    fn told(self) -> [u64; 2] {
        [self.place as u64, self.length as u64]
    }
}

// The word of a refusal, which leaves every number as it was lent.
pub fn word(r: Refusal) -> u32
    ensures { Reports (refused r) result [] [] }
{
    let number = r.number() as u32;
    match r {
        Refusal::MarkerBitNotSet { bit_number } => number + 256 * bit_number as u32,
        Refusal::IncorrectPrefixBits { expected, actual } => {
            number + 256 * expected as u32 + 65536 * actual as u32
        }
        _ => number,
    }
}

pub fn report(r: Result<(), Refusal>) -> u32
    ensures { Reports (given no_values r) result [] [] }
{
    match r {
        Ok(()) => DONE,
        Err(e) => word(e),
    }
}

pub fn report_one<T: Told<1>>(r: Result<T, Refusal>, value: &mut u64) -> u32
    ensures { Reports (given T.values r) result (value.old ∷ []) (value.new ∷ []) }
{
    match r {
        Ok(x) => {
            [*value] = x.told();
            DONE
        }
        Err(e) => word(e),
    }
}

pub fn report_two<T: Told<2>>(r: Result<T, Refusal>, first: &mut u64, second: &mut u64) -> u32
    ensures { Reports (given T.values r) result (first.old ∷ second.old ∷ [])
        (first.new ∷ second.new ∷ []) }
{
    match r {
        Ok(x) => {
            [*first, *second] = x.told();
            DONE
        }
        Err(e) => word(e),
    }
}

pub fn report_three<T: Told<3>>(
    r: Result<T, Refusal>,
    first: &mut u64,
    second: &mut u64,
    third: &mut u64,
) -> u32
    ensures { Reports (given T.values r) result (first.old ∷ second.old ∷ third.old ∷ [])
        (first.new ∷ second.new ∷ third.new ∷ []) }
{
    match r {
        Ok(x) => {
            [*first, *second, *third] = x.told();
            DONE
        }
        Err(e) => word(e),
    }
}

pub fn report_four<T: Told<4>>(
    r: Result<T, Refusal>,
    first: &mut u64,
    second: &mut u64,
    third: &mut u64,
    fourth: &mut u64,
) -> u32
    ensures { Reports (given T.values r) result (first.old ∷ second.old ∷ third.old ∷ fourth.old ∷ [])
        (first.new ∷ second.new ∷ third.new ∷ fourth.new ∷ []) }
{
    match r {
        Ok(x) => {
            [*first, *second, *third, *fourth] = x.told();
            DONE
        }
        Err(e) => word(e),
    }
}

pub fn report_five<T: Told<5>>(
    r: Result<T, Refusal>,
    first: &mut u64,
    second: &mut u64,
    third: &mut u64,
    fourth: &mut u64,
    fifth: &mut u64,
) -> u32
    ensures { Reports (given T.values r) result (first.old ∷ second.old ∷ third.old ∷ fourth.old ∷ fifth.old ∷ [])
        (first.new ∷ second.new ∷ third.new ∷ fourth.new ∷ fifth.new ∷ []) }
{
    match r {
        Ok(x) => {
            [*first, *second, *third, *fourth, *fifth] = x.told();
            DONE
        }
        Err(e) => word(e),
    }
}
