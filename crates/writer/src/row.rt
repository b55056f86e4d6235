// A unit as the row of 20 numbers that a host lends:
//   0 id, 1 bounded, 2 priority, 3 alignment, 4 copyright, 5 original,
//   6 times (0 none, 1 a PTS alone, 2 PTS and DTS), 7 PTS, 8 DTS,
//   9 ESCR there, 10 base, 11 extension, 12 ES rate there, 13 ES rate, 14 trick mode byte there, 15 the byte,
//   16 copy info there, 17 copy info, 18 CRC there, 19 CRC.
// A flag is 0 for no and any other number for yes. The value of a field that is not there is not looked at.
ghost use Rattle.std.specs.Prelude.{◌≡◌, None, Some, ◌+◌, ◌<◌, ltb, length, get_or, option_map};
ghost use Rattle.bits.specs.Answer.{pick};
ghost use Rattle.writer.specs.Row.{yes, times_in, escr_in, field_in, too_large, unit_of};

use crate::{Times, Unit};

// How many numbers a row has.
const NUMBERS: usize = 20;

// ---- each field; none where the row has a number that is too large for it

// A field by its flag: its value where it is there.
fn field<T: Copy>(there: u64, value: Option<T>) -> Option<Option<T>>
    ensures { result ≡ pick (yes there) (option_map Some value) (Some None) }
{
    if there == 0 {
        return Some(None);
    }
    value.map(Some)
}

fn times_in(row: &[u64]) -> Option<Times>
    requires { length row.now ≡ 20 }
    ensures { result ≡ pick (ltb 2 (get_or row.now 6 0)) None (Some (times_in row.now)) }
{
    match row[6] {
        0 => Some(Times::Untimed),
        1 => Some(Times::Pts(row[7])),
        2 => Some(Times::Both(row[7], row[8])),
        _ => None,
    }
}

fn escr_in(row: &[u64]) -> Option<Option<(u64, u16)>>
    requires { length row.now ≡ 20 }
    ensures { result ≡ pick (too_large 9 11 16 row.now) None (Some (escr_in row.now)) }
{
    let base = row[10];
    let extension = u16::try_from(row[11]).ok();
    field(row[9], extension.map(|extension| (base, extension)))
}

fn rate_in(row: &[u64]) -> Option<Option<u32>>
    requires { length row.now ≡ 20 }
    ensures { result ≡ pick (too_large 12 13 32 row.now) None (Some (field_in 12 row.now)) }
{
    field(row[12], u32::try_from(row[13]).ok())
}

// The byte whose flag has this place.
fn byte_in(there: usize, row: &[u64]) -> Option<Option<u8>>
    requires { there + 1 < length row.now }
    ensures { result ≡ pick (too_large there (there + 1) 8 row.now) None (Some (field_in there row.now)) }
{
    field(row[there], u8::try_from(row[there + 1]).ok())
}

fn crc_in(row: &[u64]) -> Option<Option<u16>>
    requires { length row.now ≡ 20 }
    ensures { result ≡ pick (too_large 18 19 16 row.now) None (Some (field_in 18 row.now)) }
{
    field(row[18], u16::try_from(row[19]).ok())
}

// ---- the row

// The unit that a row stands for, if for one.
#[tactic(auto, unfolding(crate::specs::Row::unit_of, crate::specs::Row::stray_unit))]
pub fn read(row: &[u64]) -> Option<Unit>
    ensures { result ≡ unit_of row.now }
{
    if row.len() != NUMBERS {
        return None;
    }
    Some(Unit {
        id: u8::try_from(row[0]).ok()?,
        bounded: row[1] != 0,
        priority: row[2] != 0,
        alignment: row[3] != 0,
        copyright: row[4] != 0,
        original: row[5] != 0,
        times: times_in(row)?,
        escr: escr_in(row)?,
        rate: rate_in(row)?,
        trick: byte_in(14, row)?,
        copy: byte_in(16, row)?,
        crc: crc_in(row)?,
    })
}
