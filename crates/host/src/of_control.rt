// Clock references, counters, PIDs and the control bits of a packet's fourth byte.
ghost use Rattle.std.specs.Prelude.{◌≡◌, [], ◌∷◌, ◌-◌, ◌^◌};
ghost use Rattle.bits.specs.Answer.{answer};
ghost use Rattle.bits.specs.Numbers.{done};
ghost use Rattle.bits.specs.Refused.{given, flag_values, number_values};
ghost use Rattle.control.specs.Clock.{clock_values, read_clock, make_clock, clock_number};
ghost use Rattle.control.specs.Control.{counter_values, make_counter, pid_values, make_pid};
ghost use Rattle.host.specs.Reports.{Reports};
ghost use Rattle.host.specs.Clocks.{same_answer, compared_answer, compared_values, follows_answer, control_values, control_answer, scrambling_values};
ghost use Rattle.host.specs.Clocks.{scrambling_answer};

use crate::told::{DONE, Told, report_one, report_two};
use bits::Refusal;
use control::{
    AdaptationControl, ClockRef, Compared, ContinuityCounter, Pid, TransportScramblingControl,
};

impl Told<2> for ClockRef {
    ghost values = { clock_values };

    fn told(self) -> [u64; 2] {
        [self.base(), self.extension() as u64]
    }
}

// ClockRef::from_slice
pub fn cmv_clock_ref_from_slice(buf: &[u8], base: &mut u64, extension: &mut u64) -> u32
    ensures { Reports (read_clock buf.now) result (base.old ∷ extension.old ∷ [])
        (base.new ∷ extension.new ∷ []) }
{
    report_two(ClockRef::from_slice(buf), base, extension)
}

// ClockRef::from_parts, and its two values
pub fn cmv_clock_ref_from_parts(b: u64, e: u16, base: &mut u64, extension: &mut u64) -> u32
    ensures { Reports (make_clock b e) result (base.old ∷ extension.old ∷ [])
        (base.new ∷ extension.new ∷ []) }
{
    report_two(ClockRef::from_parts(b, e), base, extension)
}

fn clock_number(base: u64, extension: u16) -> Result<u64, Refusal>
    ensures { given number_values result ≡ clock_number base extension }
{
    u64::try_from(ClockRef::from_parts(base, extension)?)
}

// u64::try_from(ClockRef), of two numbers that are a clock reference
pub fn cmv_clock_ref_into_u64(base: u64, extension: u16, number: &mut u64) -> u32
    ensures { Reports (clock_number base extension) result (number.old ∷ []) (number.new ∷ []) }
{
    report_one(clock_number(base, extension), number)
}

fn same_clock(base: u64, extension: u16, base2: u64, extension2: u16) -> Result<bool, Refusal>
    ensures { given flag_values result ≡ same_answer base extension base2 extension2 }
{
    let c = ClockRef::from_parts(base, extension)?;
    let d = ClockRef::from_parts(base2, extension2)?;
    Ok(c == d)
}

// Whether two pairs of numbers that are clock references are one
pub fn cmv_clock_ref_eq(
    base: u64,
    extension: u16,
    base2: u64,
    extension2: u16,
    same: &mut u64,
) -> u32
    ensures { Reports (same_answer base extension base2 extension2) result (same.old ∷ []) (same.new ∷ []) }
{
    report_one(same_clock(base, extension, base2, extension2), same)
}

impl Told<1> for ContinuityCounter {
    ghost values = { counter_values };

    fn told(self) -> [u64; 1] {
        [self.count() as u64]
    }
}

// ContinuityCounter::new, and its count
pub fn cmv_continuity_counter_new(count: u8, value: &mut u64) -> u32
    ensures { Reports (make_counter count) result (value.old ∷ []) (value.new ∷ []) }
{
    report_one(ContinuityCounter::new(count), value)
}

impl Told<1> for Compared {
    ghost values = { compared_values };

    fn told(self) -> [u64; 1] {
        match self {
            Compared::Next => [0],
            Compared::Same => [1],
            Compared::Jump => [2],
        }
    }
}

fn counters_compared(count: u8, last: u8) -> Result<Compared, Refusal>
    ensures { given compared_values result ≡ compared_answer count last }
{
    let a = ContinuityCounter::new(count)?;
    let b = ContinuityCounter::new(last)?;
    Ok(a.compare(b))
}

// ContinuityCounter::compare, of two numbers that are counters
pub fn cmv_continuity_counter_compare(count: u8, last: u8, compared: &mut u64) -> u32
    ensures { Reports (compared_answer count last) result (compared.old ∷ []) (compared.new ∷ []) }
{
    report_one(counters_compared(count, last), compared)
}

fn counter_follows(count: u8, other: u8) -> Result<bool, Refusal>
    ensures { given flag_values result ≡ follows_answer count other }
{
    let a = ContinuityCounter::new(count)?;
    let b = ContinuityCounter::new(other)?;
    Ok(a.follows(b))
}

// ContinuityCounter::follows, of two numbers that are counters
pub fn cmv_continuity_counter_follows(count: u8, other: u8, follows: &mut u64) -> u32
    ensures { Reports (follows_answer count other) result (follows.old ∷ []) (follows.new ∷ []) }
{
    report_one(counter_follows(count, other), follows)
}

impl Told<1> for Pid {
    ghost values = { pid_values };

    fn told(self) -> [u64; 1] {
        [u16::from(self) as u64]
    }
}

// Pid::new, and its number
pub fn cmv_pid_new(pid: u16, value: &mut u64) -> u32
    ensures { Reports (make_pid pid) result (value.old ∷ []) (value.new ∷ []) }
{
    report_one(Pid::new(pid), value)
}

// Pid::try_from, and its number
pub fn cmv_pid_try_from(pid: u16, value: &mut u64) -> u32
    ensures { Reports (make_pid pid) result (value.old ∷ []) (value.new ∷ []) }
{
    report_one(Pid::try_from(pid), value)
}

impl Told<2> for AdaptationControl {
    ghost values = { control_values };

    fn told(self) -> [u64; 2] {
        [
            self.has_adaptation_field() as u64,
            self.has_payload() as u64,
        ]
    }
}

// AdaptationControl::has_adaptation_field and has_payload
pub fn cmv_adaptation_control(byte: u8, field: &mut u64, payload: &mut u64) -> u32
    ensures { Reports (control_answer byte) result (field.old ∷ payload.old ∷ [])
        (field.new ∷ payload.new ∷ []) }
{
    report_two(Ok(AdaptationControl::new(byte)), field, payload)
}

// Whether it is scrambled, and the scheme, 0 where it is not.
impl Told<2> for TransportScramblingControl {
    ghost values = { scrambling_values };

    fn told(self) -> [u64; 2] {
        [
            self.is_scrambled() as u64,
            self.scheme().unwrap_or(0) as u64,
        ]
    }
}

// TransportScramblingControl::is_scrambled and scheme
pub fn cmv_transport_scrambling_control(byte: u8, scrambled: &mut u64, scheme: &mut u64) -> u32
    ensures { Reports (scrambling_answer byte) result (scrambled.old ∷ scheme.old ∷ [])
        (scrambled.new ∷ scheme.new ∷ []) }
{
    report_two(
        Ok(TransportScramblingControl::from_byte_four(byte)),
        scrambled,
        scheme,
    )
}

// Pid::MAX_VALUE and Pid::PID_COUNT
pub fn cmv_control_constants(max: &mut u64, count: &mut u64) -> u32
    ensures { Reports (answer done ((2 ^ 13 - 1) ∷ 2 ^ 13 ∷ [])) result (max.old ∷ count.old ∷ [])
        (max.new ∷ count.new ∷ []) }
{
    *max = Pid::MAX_VALUE as u64;
    *count = Pid::PID_COUNT as u64;
    DONE
}
