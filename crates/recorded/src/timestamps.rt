// Timestamps: codes 01 to 05.
use crate::answers::Out;
use crate::numbers::long;
use host::of_timestamp;

pub fn word(code: u8, args: &[u8], Out { a, .. }: &mut Out) -> Option<u32> {
    Some(match code {
        0x01 => of_timestamp::cmv_timestamp_from_pts_bytes(args, a),
        0x02 => of_timestamp::cmv_timestamp_from_dts_bytes(args, a),
        0x03 => of_timestamp::cmv_timestamp_from_bytes(args, a),
        0x04 => of_timestamp::cmv_timestamp_from_u64(long(args)?, a),
        0x05 => {
            let (time, earlier) = args.split_at_checked(8)?;
            of_timestamp::cmv_timestamp_likely_wrapped_since(long(time)?, long(earlier)?, a)
        }
        _ => return None,
    })
}
