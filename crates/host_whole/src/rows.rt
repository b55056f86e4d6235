// How answers come to stand in an array of numbers, one after another.
ghost use Rattle.std.specs.Prelude.{◌≡◌, ◌++◌, ◌+◌, ◌≤◌, length, take};
ghost use Rattle.bits.specs.Answer.{answer};
ghost use Rattle.bits.specs.Numbers.{done};
ghost use Rattle.bits.specs.Refused.{given};
ghost use Rattle.host_whole.specs.Whole.{numbers, row};

use bits::Refusal;
use host::told::{DONE, Told, word};

fn put_all<const N: usize>(numbers: [u64; N], at: usize, fields: &mut [u64])
    requires { at + N ≤ length fields.old }
    ensures told { take (at + N) fields.new ≡ take at fields.old ++ numbers.entry }
    ensures size { length fields.new ≡ length fields.old }
{
    for i in 0..N {
        fields[at + i] = numbers[i];
    }
}

// The numbers of a value, from a place on.
pub(crate) fn put<T: Told<N>, const N: usize>(x: T, at: usize, fields: &mut [u64])
    requires { at + N ≤ length fields.old }
    ensures told { take (at + N) fields.new ≡ take at fields.old ++ numbers N (answer done (T.values x)) }
    ensures size { length fields.new ≡ length fields.old }
{
    put_all(x.told(), at, fields);
}

// The word of an answer, then its numbers; zeros where it is refused.
pub(crate) fn put_row<T: Told<N>, const N: usize>(
    r: Result<T, Refusal>,
    at: usize,
    fields: &mut [u64],
)
    requires { at + 1 + N ≤ length fields.old }
    ensures told { take (at + 1 + N) fields.new ≡ take at fields.old ++ row N (given T.values r) }
    ensures size { length fields.new ≡ length fields.old }
{
    match r {
        Ok(x) => {
            put(DONE, at, fields);
            put(x, at + 1, fields);
        }
        Err(e) => {
            put(word(e), at, fields);
            put_all([0; N], at + 1, fields);
        }
    }
}
