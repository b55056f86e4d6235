// Timestamps.
ghost use Rattle.std.specs.Prelude.{◌≡◌, [], ◌∷◌, ◌-◌, ◌^◌};
ghost use Rattle.bits.specs.Answer.{answer};
ghost use Rattle.bits.specs.Numbers.{done};
ghost use Rattle.bits.specs.Refused.{given, flag_values};
ghost use Rattle.timestamp.specs.Stamp.{timestamp_values, make_stamp, read_stamp, read_prefixed, pts_prefix, dts_prefix};
ghost use Rattle.host.specs.Reports.{Reports};
ghost use Rattle.host.specs.Stamps.{wrap_answer};

use crate::told::{DONE, Told, report_one};
use bits::Refusal;
use timestamp::Timestamp;

impl Told<1> for Timestamp {
    ghost values = { timestamp_values };

    fn told(self) -> [u64; 1] {
        [self.value()]
    }
}

// Timestamp::from_pts_bytes
pub fn cmv_timestamp_from_pts_bytes(buf: &[u8], value: &mut u64) -> u32
    ensures { Reports (read_prefixed pts_prefix buf.now) result (value.old ∷ []) (value.new ∷ []) }
{
    report_one(Timestamp::from_pts_bytes(buf), value)
}

// Timestamp::from_dts_bytes
pub fn cmv_timestamp_from_dts_bytes(buf: &[u8], value: &mut u64) -> u32
    ensures { Reports (read_prefixed dts_prefix buf.now) result (value.old ∷ []) (value.new ∷ []) }
{
    report_one(Timestamp::from_dts_bytes(buf), value)
}

// Timestamp::from_bytes
pub fn cmv_timestamp_from_bytes(buf: &[u8], value: &mut u64) -> u32
    ensures { Reports (read_stamp buf.now) result (value.old ∷ []) (value.new ∷ []) }
{
    report_one(Timestamp::from_bytes(buf), value)
}

// Timestamp::from_u64, and its value
pub fn cmv_timestamp_from_u64(val: u64, value: &mut u64) -> u32
    ensures { Reports (make_stamp val) result (value.old ∷ []) (value.new ∷ []) }
{
    report_one(Timestamp::from_u64(val), value)
}

fn likely_wrapped_since(val: u64, since: u64) -> Result<bool, Refusal>
    ensures { given flag_values result ≡ wrap_answer val since }
{
    let a = Timestamp::from_u64(val)?;
    let b = Timestamp::from_u64(since)?;
    Ok(a.likely_wrapped_since(b))
}

// Timestamp::likely_wrapped_since, of two numbers that are timestamps
pub fn cmv_timestamp_likely_wrapped_since(val: u64, since: u64, wrapped: &mut u64) -> u32
    ensures { Reports (wrap_answer val since) result (wrapped.old ∷ []) (wrapped.new ∷ []) }
{
    report_one(likely_wrapped_since(val, since), wrapped)
}

// Timestamp::MAX and Timestamp::TIMEBASE
pub fn cmv_timestamp_constants(max: &mut u64, timebase: &mut u64) -> u32
    ensures { Reports (answer done ((2 ^ 33 - 1) ∷ 90_000 ∷ [])) result (max.old ∷ timebase.old ∷ [])
        (max.new ∷ timebase.new ∷ []) }
{
    *max = Timestamp::MAX.value();
    *timebase = Timestamp::TIMEBASE;
    DONE
}
