// Clock references, counters, PIDs and control bits: codes 10 to 19.
use crate::answers::Out;
use crate::numbers::{byte, long, short};
use host::of_control;

// Base and extension.
fn clock(args: &[u8]) -> Option<(u64, u16)> {
    let (base, extension) = args.split_at_checked(8)?;
    Some((long(base)?, short(extension)?))
}

pub fn word(code: u8, args: &[u8], Out { a, b, .. }: &mut Out) -> Option<u32> {
    Some(match code {
        0x10 => of_control::cmv_clock_ref_from_slice(args, a, b),
        0x11 => {
            let (base, extension) = clock(args)?;
            of_control::cmv_clock_ref_from_parts(base, extension, a, b)
        }
        0x12 => {
            let (base, extension) = clock(args)?;
            of_control::cmv_clock_ref_into_u64(base, extension, a)
        }
        0x13 => {
            let (first, second) = args.split_at_checked(10)?;
            let (base, extension) = clock(first)?;
            let (base2, extension2) = clock(second)?;
            of_control::cmv_clock_ref_eq(base, extension, base2, extension2, a)
        }
        0x14 => of_control::cmv_continuity_counter_new(byte(args)?, a),
        0x15 => {
            let [count, last] = args else {
                return None;
            };
            of_control::cmv_continuity_counter_follows(*count, *last, a)
        }
        0x16 => of_control::cmv_pid_new(short(args)?, a),
        0x17 => of_control::cmv_pid_try_from(short(args)?, a),
        0x18 => of_control::cmv_adaptation_control(byte(args)?, a, b),
        0x19 => of_control::cmv_transport_scrambling_control(byte(args)?, a, b),
        _ => return None,
    })
}
