// The writer: a unit with its payload as transport packets.
#![tactic(auto)]

ghost use Rattle.std.specs.Prelude.{◌≡◌, List, [], ◌∷◌, ◌++◌, true, ℕ, ◌+◌, ◌-◌, ◌*◌, ◌/◌, ◌%◌, ◌^◌, ◌≤◌, ◌<◌, leb, ltb, length, take, drop};
ghost use Rattle.std.specs.Prelude.{replicate, is_some, IfSome, unwrap_or};
ghost use Rattle.bits.specs.Answer.{pick, truth};
ghost use Rattle.bits.specs.Pack.{joined, bytes_of, flat};
ghost use Rattle.bits.specs.Refused.{given, number_values};
ghost use Rattle.timestamp.specs.Stamp.{stamp_bytes};
ghost use Rattle.pes.specs.Stream.{parsed_id};
ghost use Rattle.contents.specs.Layout.{escr_bytes, es_rate_bytes, trick_bytes, copy_info_bytes, crc_bytes};
ghost use Rattle.writer.specs.Unit.{times_flags, field_flag, times_bytes, data_of, stated_length, count_for, count_of};
ghost use Rattle.writer.specs.Packets.{head_table, times_image, header_image, packet_table, stuffing, carrier, carried, packets_of};
ghost use Rattle.writer.specs.Writer.{all_of, within, times_fit, escr_fits, fits, route_tests, unit_tests, size_tests, write_of, output_of};
ghost use Rattle.writer.specs.Row.{route};

use bits::Refusal;
use pes::StreamId;
use std::marker::Model;

pub mod row;

// What the units of a list share: the PID, and the counter of the first packet.
#[derive(Clone, Copy, Debug, PartialEq, Eq)]
pub struct Route {
    pub pid: u16,
    pub counter: u8,
}

// The times of a unit. Three cases, and no two options: a DTS does not stand alone.
#[derive(Clone, Copy, Debug, PartialEq, Eq)]
pub enum Times {
    Untimed,
    Pts(u64),
    Both(u64, u64),
}

// The fields of a unit. Copyright is the plain bit, and the trick mode byte is written as it is.
#[derive(Clone, Copy, Debug, PartialEq, Eq)]
pub struct Unit {
    pub id: u8,
    pub bounded: bool,
    pub priority: bool,
    pub alignment: bool,
    pub copyright: bool,
    pub original: bool,
    pub times: Times,
    // Base and extension.
    pub escr: Option<(u64, u16)>,
    pub rate: Option<u32>,
    pub trick: Option<u8>,
    pub copy: Option<u8>,
    pub crc: Option<u16>,
}

// ---- what may be written

fn is_parsed(id: u8) -> bool
    ensures { result ≡ parsed_id id }
{
    StreamId::from_id(id).is_parsed()
}

fn id_fits(id: u8, bounded: bool) -> bool
    ensures { result ≡ all_of (leb 0xBC id ∷ parsed_id id ∷ pick bounded true (within 0xE0 0xEF id) ∷ []) }
{
    0xBC <= id && is_parsed(id) && (bounded || 0xE0 <= id && id <= 0xEF)
}

fn times_fit(times: Times) -> bool
    ensures { result ≡ times_fit times }
{
    match times {
        Times::Untimed => true,
        Times::Pts(pts) => pts < 1 << 33,
        Times::Both(pts, dts) => pts < 1 << 33 && dts < 1 << 33,
    }
}

fn escr_fits(escr: Option<(u64, u16)>) -> bool
    ensures { result ≡ escr_fits escr }
{
    escr.is_none_or(|(base, extension)| base < 1 << 33 && extension <= 299)
}

fn rate_fits(rate: Option<u32>) -> bool
    ensures { result ≡ fits 1 (2 ^ 22 - 1) rate }
{
    rate.is_none_or(|units| 1 <= units && units < 1 << 22)
}

fn copy_fits(copy: Option<u8>) -> bool
    ensures { result ≡ fits 0 127 copy }
{
    copy.is_none_or(|info| info <= 127)
}

#[tactic(auto, unfolding(crate::specs::Writer::unit_tests))]
fn unit_fits(unit: Unit) -> bool
    ensures { result ≡ all_of (unit_tests unit) }
{
    id_fits(unit.id, unit.bounded)
        && times_fit(unit.times)
        && escr_fits(unit.escr)
        && rate_fits(unit.rate)
        && copy_fits(unit.copy)
}

// ---- flags and sizes

fn times_flags(times: Times) -> u8
    ensures { (result ≡ times_flags times) × (result ≤ 3) }
{
    match times {
        Times::Untimed => 0,
        Times::Pts(_) => 2,
        Times::Both(_, _) => 3,
    }
}

fn times_bytes(times: Times) -> u8
    ensures { (result ≡ times_bytes times) × (result ≤ 10) }
{
    match times {
        Times::Untimed => 0,
        Times::Pts(_) => 5,
        Times::Both(_, _) => 10,
    }
}

// The flag of any other field.
fn flag<T: Copy>(field: Option<T>) -> u8
    ensures { (result ≡ field_flag field) × (result ≤ 1) }
{
    u8::from(field.is_some())
}

// The data bytes of a header.
#[tactic(auto, unfolding(crate::specs::Unit::data_of))]
fn data_bytes(unit: Unit) -> u8
    ensures { (result ≡ data_of unit) × (result ≤ 23) }
{
    times_bytes(unit.times)
        + 6 * flag(unit.escr)
        + 3 * flag(unit.rate)
        + flag(unit.trick)
        + flag(unit.copy)
        + 2 * flag(unit.crc)
}

// PES_packet_length, with so many bytes of data in the header and of payload.
fn stated_length(bounded: bool, fields: u8, size: usize) -> usize
    requires { size ≤ 65536 }
    ensures { result ≡ pick bounded (3 + fields + size) 0 }
{
    if bounded {
        return 3 + fields as usize + size;
    }
    0
}

// A unit with so many bytes of payload, and what its header says of the two.
#[derive(Clone, Copy)]
struct Plan {
    unit: Unit,
    size: usize,
    // The data bytes of the header.
    fields: u8,
    // PES_packet_length.
    stated: u16,
    ghost data: { (fields ≡ data_of unit) × (fields ≤ 23) },
    ghost length: { (stated ≡ stated_length unit size) × (size ≤ 65536) },
}

impl Plan {
    // None where there is too much payload.
    #[tactic(auto, unfolding(crate::specs::Writer::size_tests, crate::specs::Unit::stated_length))]
    fn new(unit: Unit, size: usize) -> Option<Plan>
        ensures fits { is_some result ≡ all_of (size_tests unit size) }
        ensures of { IfSome result (λ plan. (plan.unit ≡ unit) × (plan.size ≡ size)) }
    {
        if 65536 < size {
            return None;
        }
        let fields = data_bytes(unit);
        let stated = u16::try_from(stated_length(unit.bounded, fields, size)).ok()?;
        Some(Plan {
            unit,
            size,
            fields,
            stated,
        })
    }

    // The packets that header and payload take.
    #[tactic(auto, unfolding(crate::specs::Unit::count_of))]
    fn count(self) -> usize
        ensures { result ≡ count_of self.unit self.size }
    {
        (9 + self.fields as usize + self.size).div_ceil(184)
    }

    // The nine bytes that every header has.
    fn head_bytes(self) -> [u8; 9]
        ensures { result ≡ bytes_of 9 (joined (head_table self.unit self.size)) }
    {
        let unit = self.unit;
        let bits = 128
            + 8 * u8::from(unit.priority)
            + 4 * u8::from(unit.alignment)
            + 2 * u8::from(unit.copyright)
            + u8::from(unit.original);
        let flags = 64 * times_flags(unit.times)
            + 32 * flag(unit.escr)
            + 16 * flag(unit.rate)
            + 8 * flag(unit.trick)
            + 4 * flag(unit.copy)
            + 2 * flag(unit.crc);
        let [high, low] = self.stated.to_be_bytes();
        [0, 0, 1, unit.id, high, low, bits, flags, self.fields]
    }

    fn header(self) -> Head
        ensures image { result ≡ header_image self.unit self.size }
        ensures len { length result ≡ 9 + self.fields }
    {
        let unit = self.unit;
        let mut head = Head::new();
        head.put(&self.head_bytes());
        head.put_times(unit.times);
        head.put_field(unit.escr.map(escr_bytes));
        head.put_field(unit.rate.map(rate_bytes));
        head.put_field(unit.trick.map(trick_bytes));
        head.put_field(unit.copy.map(copy_info_bytes));
        head.put_field(unit.crc.map(crc_bytes));
        head
    }
}

// ---- the fields as bytes

// The top bit of a time and the marker bit, at their places in the first byte. It is a choice, because the compiler makes a 64-bit shift of
// a product.
fn top_and_marker(time: u64) -> u32
    ensures { result ≡ time / 2 ^ 32 % 2 * 8 + 1 }
{
    if time / (1 << 32) % 2 == 0 {
        return 1;
    }
    9
}

// A time in five bytes, after a prefix of 4 bits. They come from two halves of the time, so that a 32-bit processor needs no 64-bit shift.
fn stamp(prefix: u8, time: u64) -> [u8; 5]
    ensures { result ≡ stamp_bytes prefix time }
{
    let low = (time % (1 << 32)) as u32;
    let first = u32::from(prefix % 16) * 16 + top_and_marker(time) + low / (1 << 30) * 2;
    let rest = low / (1 << 15) % (1 << 15) * (1 << 17) + (1 << 16) + low % (1 << 15) * 2 + 1;
    let [a, b, c, d] = rest.to_be_bytes();
    [first as u8, a, b, c, d]
}

// Base and extension.
fn escr_bytes(escr: (u64, u16)) -> [u8; 6]
    ensures { result ≡ escr_bytes escr.0 escr.1 }
{
    let (base, extension) = escr;
    let n = (3 << 46)
        + base / (1 << 30) % 8 * (1 << 43)
        + (1 << 42)
        + base / (1 << 15) % (1 << 15) * (1 << 27)
        + (1 << 26)
        + base % (1 << 15) * (1 << 11)
        + (1 << 10)
        + u64::from(extension % 512) * 2
        + 1;
    let [_, _, a, b, c, d, e, f] = n.to_be_bytes();
    [a, b, c, d, e, f]
}

fn rate_bytes(units: u32) -> [u8; 3]
    ensures { result ≡ es_rate_bytes units }
{
    let n = (1 << 23) + units % (1 << 22) * 2 + 1;
    let [_, a, b, c] = n.to_be_bytes();
    [a, b, c]
}

#[tactic(auto, unfolding(bits::specs::Pack::bytes_of))]
fn trick_bytes(raw: u8) -> [u8; 1]
    ensures { result ≡ trick_bytes raw }
{
    [raw]
}

#[tactic(auto, unfolding(bits::specs::Pack::bytes_of))]
fn copy_info_bytes(info: u8) -> [u8; 1]
    ensures { result ≡ copy_info_bytes info }
{
    [128 + info % 128]
}

fn crc_bytes(sum: u16) -> [u8; 2]
    ensures { result ≡ crc_bytes sum }
{
    sum.to_be_bytes()
}

// ---- the header

// The bytes of a header so far: of 9, and at most 23 of data.
#[derive(Drop)]
struct Head {
    bytes: [u8; 32],
    length: usize,
}

impl Model for Head {
    ghost Value = { List ℕ };

    ghost view = { λ head. take head.length head.bytes };

    ghost invariant = { λ head. head.length ≤ 32 };
}

impl Head {
    fn new() -> Head
        ensures { result ≡ [] }
    {
        Head {
            bytes: [0; 32],
            length: 0,
        }
    }

    fn as_slice(&self) -> &[u8]
        ensures value { result.now ≡ self.now }
        ensures len { length result.now ≡ length self.now }
    {
        &self.bytes[..self.length]
    }

    fn put(&mut self, bytes: &[u8])
        requires { length self.old + length bytes.now ≤ 32 }
        ensures { self.new ≡ self.old ++ bytes.now }
    {
        let end = self.length + bytes.len();
        self.bytes[self.length..end].copy_from_slice(bytes);
        self.length = end;
    }

    // The bytes of a field, where it is there.
    fn put_field<const N: usize>(&mut self, field: Option<[u8; N]>)
        requires { length self.old + N ≤ 32 }
        ensures after { self.new ≡ self.old ++ unwrap_or field.entry [] }
        ensures bound { length self.new ≤ length self.old + N }
    {
        if let Some(bytes) = field {
            self.put(&bytes);
        }
    }

    #[tactic(auto, using(crate::proofs::Laws::header_laws), unfolding(crate::specs::Packets::times_image))]
    fn put_times(&mut self, times: Times)
        requires { length self.old + 10 ≤ 32 }
        ensures after { self.new ≡ self.old ++ times_image times }
        ensures bound { length self.new ≤ length self.old + 10 }
    {
        match times {
            Times::Untimed => {}
            Times::Pts(pts) => self.put(&stamp(2, pts)),
            Times::Both(pts, dts) => {
                self.put(&stamp(3, pts));
                self.put(&stamp(1, dts));
            }
        }
    }
}

// ---- a packet

// What tells a packet from others: its PID and its counter.
#[derive(Clone, Copy)]
struct Tag {
    pid: u16,
    counter: u8,
    ghost fits: { (pid < 2 ^ 13) × (counter ≤ 15) },
}

impl Tag {
    // None where the route does not fit.
    #[tactic(auto, unfolding(crate::specs::Writer::route_tests))]
    fn new(route: Route) -> Option<Tag>
        ensures fits { is_some result ≡ all_of (route_tests route) }
        ensures of { IfSome result (λ tag. (tag.pid ≡ route.pid) × (tag.counter ≡ route.counter)) }
    {
        let Route { pid, counter } = route;
        if pid < 16 || 8190 < pid || 15 < counter {
            return None;
        }
        Some(Tag { pid, counter })
    }

    // That of the packet after it.
    fn next(self) -> Tag
        ensures { (result.pid ≡ self.pid) × (result.counter ≡ (self.counter + 1) % 16) }
    {
        Tag {
            pid: self.pid,
            counter: (self.counter + 1) % 16,
        }
    }
}

// The fields of a packet in an image of FF, before its bytes of payload come to stand at its end.
fn set_fields(start: bool, tag: Tag, size: usize, p: &mut [u8; 188])
    requires { (size ≤ 184) × (p.old ≡ replicate 188 255) }
    ensures { p.new ≡ bytes_of 4 (joined (packet_table (truth start) tag.pid (truth (ltb size 184)) tag.counter))
        ++ (stuffing size ++ replicate size 255) }
{
    let [high, low] = tag.pid.to_be_bytes();
    p[0] = 0x47;
    p[1] = 64 * u8::from(start) + high;
    p[2] = low;
    p[3] = 16 + tag.counter;
    if size == 184 {
        return;
    }
    // An adaptation field: its length, and its flags where that is above 0.
    p[3] = 48 + tag.counter;
    p[4] = (183 - size) as u8;
    if size == 183 {
        return;
    }
    p[5] = 0;
}

// A packet whose payload is that of two parts, one after the other, at the front of the output. The payload leaves the image before the
// four bytes ahead of it: so, where the sizes are known, the compiler makes one copy of two.
fn put_packet(start: bool, tag: Tag, head: &[u8], body: &[u8], out: &mut [u8])
    requires { (length head.now + length body.now ≤ 184) × (188 ≤ length out.old) }
    ensures { out.new ≡ carrier (truth start) tag.pid tag.counter (head.now ++ body.now) ++ drop 188 out.old }
{
    let size = head.len() + body.len();
    let mut p = [0xFFu8; 188];
    set_fields(start, tag, size, &mut p);
    p[188 - size..188 - body.len()].copy_from_slice(head);
    p[188 - body.len()..].copy_from_slice(body);
    let (front, back) = p.split_at(4);
    out[4..188].copy_from_slice(back);
    out[..4].copy_from_slice(front);
}

// ---- the packets of a unit

// Packets with these bytes, 184 each and the last the rest, one after another at the front of the output. Those that are full go by a loop
// where every size is known.
fn put_rest(mut tag: Tag, body: &[u8], out: &mut [u8])
    requires { 188 * count_for (length body.now) ≤ length out.old }
    ensures { out.new ≡ flat (carried (count_for (length body.now)) 0 tag.pid tag.counter body.now)
        ++ drop (188 * count_for (length body.now)) out.old }
{
    let (full, last) = body.as_chunks::<184>();
    let mut place = 0;
    for part in full {
        put_packet(false, tag, &[], part, &mut out[place..place + 188]);
        tag = tag.next();
        place += 188;
    }
    if !last.is_empty() {
        put_packet(false, tag, &[], last, &mut out[place..place + 188]);
    }
}

#[tactic(auto, unfolding(crate::specs::Unit::count_of))]
fn put_packets(tag: Tag, plan: Plan, payload: &[u8], out: &mut [u8])
    requires { (plan.size ≡ length payload.now) × (188 * count_of plan.unit plan.size ≤ length out.old) }
    ensures { out.new ≡ flat (packets_of (route tag.pid tag.counter) plan.unit payload.now)
        ++ drop (188 * count_of plan.unit plan.size) out.old }
{
    let head = plan.header();
    let head = head.as_slice();
    let (first, rest) = payload.split_at((184 - head.len()).min(payload.len()));
    put_packet(true, tag, head, first, out);
    put_rest(tag.next(), rest, &mut out[188..]);
}

// The unit as packets at the front of the output; what is past them stays, and on a refusal all of it.
#[tactic(auto, unfolding(crate::specs::Writer::write_of, crate::specs::Writer::output_of))]
pub fn write(route: Route, unit: Unit, payload: &[u8], out: &mut [u8]) -> Result<usize, Refusal>
    ensures { (given number_values result ≡ write_of route unit payload.now out.old)
        × (out.new ≡ output_of route unit payload.now out.old) }
{
    let tag = Tag::new(route).ok_or(Refusal::BadField)?;
    if !unit_fits(unit) {
        return Err(Refusal::BadField);
    }
    let plan = Plan::new(unit, payload.len()).ok_or(Refusal::TooLong)?;
    let count = plan.count();
    if out.len() / 188 < count {
        return Err(Refusal::NoRoom);
    }
    put_packets(tag, plan, payload, out);
    Ok(count)
}
