// Arguments that are a number, the most significant byte first; none where they are too few or too many bytes.

pub fn byte(args: &[u8]) -> Option<u8> {
    Some(u8::from_be_bytes(args.try_into().ok()?))
}

pub fn short(args: &[u8]) -> Option<u16> {
    Some(u16::from_be_bytes(args.try_into().ok()?))
}

pub fn int(args: &[u8]) -> Option<u32> {
    Some(u32::from_be_bytes(args.try_into().ok()?))
}

pub fn long(args: &[u8]) -> Option<u64> {
    Some(u64::from_be_bytes(args.try_into().ok()?))
}
