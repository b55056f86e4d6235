// The gathering store: the bytes of a unit, event by event.
#![tactic(auto)]

ghost use Rattle.std.specs.Prelude.{◌≡◌, ◌+◌, ◌≤◌, [], length, false};
ghost use Rattle.bits.specs.Answer.{answer, part_at, placed_at};
ghost use Rattle.bits.specs.Refused.{given, no_values};
ghost use Rattle.event_log.specs.Entry.{kind_number, kind_values};
ghost use Rattle.gather.specs.Belongs.{own_place, own_bytes};
ghost use Rattle.gather.specs.Gather.{gathering, emptied, kept, added, gather_of, store_of, given_gathered, read_of, held_bytes};
ghost use Rattle.gather.specs.Gather.{event_kind, standing, appended, applied, given_next};

use bits::{Extent, Refusal, part};
use event_log::{Event, EventKind};
use packet::SIZE;

pub mod row;

// Where the bytes so far lie: in the packet of the begin, at a place, or in the store, from its start on. After a begin they stand in
// the store too. Both are places, so this is no Option: its None would say that the bytes lie nowhere.
#[derive(Clone, Copy, Debug, PartialEq, Eq)]
pub enum Lies {
    Packet(usize),
    Store,
}

#[derive(Clone, Copy, Debug, PartialEq, Eq)]
pub struct Gathering {
    pub opened: bool,
    pub count: usize,
    pub lies: Lies,
}

// What a call gives, and the state after it: 20 apart, a refusal leaves the state. A pair and no Result, since `gather_of` says the state
// on a refusal too.
#[derive(Clone, Copy, Debug, PartialEq, Eq)]
pub struct Gathered {
    pub verdict: Result<(), Refusal>,
    pub gathering: Gathering,
}

impl Gathering {
    // Before the first event: no unit, no bytes.
    pub fn new() -> Gathering
        ensures { result ≡ emptied }
    {
        Gathering {
            opened: false,
            count: 0,
            lies: Lies::Store,
        }
    }
}

// ---- which bytes belong to a unit

// Of the bytes of a begin those that belong to its unit: the payload, and none where the header is refused.
fn own_part(bytes: &[u8]) -> Extent
    ensures { (result.place ≡ own_place bytes.now)
        × (part_at result.place result.length bytes.now ≡ own_bytes bytes.now)
        × (result.place + result.length ≤ length bytes.now) }
{
    let none = Extent {
        place: 0,
        length: 0,
    };
    pes_header::payload_at(bytes).unwrap_or(none)
}

// ---- what is refused

// The kind of an event; 14 where it is none, or where the event's part leaves the packet.
#[tactic(auto, unfolding(crate::specs::Gather::wrong_event))]
fn kind_of(event: Event) -> Result<EventKind, Refusal>
    ensures { given kind_values result ≡ event_kind event }
{
    let kind = EventKind::try_from(event.kind)?;
    if SIZE < event.place as usize + event.length as usize {
        return Err(Refusal::OutOfRange);
    }
    Ok(kind)
}

// 14 for a state whose bytes leave the store, or the packet where they lie there.
#[tactic(auto, unfolding(crate::specs::Gather::wrong_gathering))]
fn stands(g: Gathering, room: usize) -> Result<(), Refusal>
    ensures { given no_values result ≡ standing g room }
{
    if room < g.count {
        return Err(Refusal::OutOfRange);
    }
    if let Lies::Packet(place) = g.lies {
        if SIZE < place {
            return Err(Refusal::OutOfRange);
        }
        if SIZE - place < g.count {
            return Err(Refusal::OutOfRange);
        }
    }
    Ok(())
}

// ---- what an event does

// Bytes of a packet into the store behind those that stay, and how many there are then; 20 where there is no room for them. For the
// compiler two slices of a caller may be one memory, which it would copy in small pieces: by way of an array of its own it is one move.
#[tactic(auto, using(crate::proofs::Laws::append_laws))]
fn append(from: &[u8], store: &mut [u8], kept: usize) -> Result<usize, Refusal>
    requires { (length from.now ≤ 188) × (kept ≤ length store.old) }
    ensures { (result ≡ appended kept from.now store.old) × (store.new ≡ placed_at store.old kept from.now) }
{
    let n = from.len();
    if store.len() - kept < n {
        return Err(Refusal::StoreFull);
    }
    let mut image = [0u8; SIZE];
    image[..n].copy_from_slice(from);
    store[kept..kept + n].copy_from_slice(&image[..n]);
    Ok(kept + n)
}

// No open unit, and so many bytes of the last one.
fn closed(count: usize) -> Gathering
    ensures { result ≡ gathering false count Lies.Store }
{
    Gathering {
        opened: false,
        count,
        lies: Lies::Store,
    }
}

// The state after an event that is not refused with 14; 20 where there is no room for what it adds.
#[tactic(auto, using(crate::proofs::Laws::apply_laws), unfolding(crate::specs::Gather::added, crate::specs::Gather::next_gathering))]
fn apply(
    g: Gathering,
    kind: EventKind,
    packet: &[u8],
    event: Event,
    store: &mut [u8],
) -> Result<Gathering, Refusal>
    requires { (length packet.now ≡ 188) × (event.place + event.length ≤ 188) × (g.count ≤ length store.old)
        × (kind_number kind ≡ event.kind) }
    ensures { (result ≡ applied g packet.now event store.old)
        × (store.new ≡ placed_at store.old (kept g event) (added g packet.now event)) }
{
    let place = event.place as usize;
    let end = place + event.length as usize;
    match kind {
        EventKind::StartStream => Ok(g),
        EventKind::BeginPacket => {
            let named = &packet[place..end];
            let own = own_part(named);
            let count = append(&named[own.place..own.place + own.length], store, 0)?;
            Ok(Gathering {
                opened: true,
                count,
                lies: Lies::Packet(place + own.place),
            })
        }
        EventKind::ContinuePacket if g.opened => {
            let count = append(&packet[place..end], store, g.count)?;
            Ok(Gathering {
                opened: true,
                count,
                lies: Lies::Store,
            })
        }
        EventKind::ContinuePacket => Ok(closed(g.count)),
        EventKind::EndPacket => Ok(closed(g.count)),
        EventKind::ContinuityError => Ok(closed(0)),
    }
}

// The state after an event, or why the event is refused: 1, 2, 14, 20 in this order. The 14 of the state comes with 1 and 2, as where its
// bytes are read out; it is the event's number too.
#[tactic(auto, using(crate::proofs::Laws::next_laws), unfolding(crate::specs::Gather::gather_of, crate::specs::Gather::store_of))]
fn next(g: Gathering, packet: &[u8], event: Event, store: &mut [u8]) -> Result<Gathering, Refusal>
    ensures { (given_next g result ≡ gather_of g packet.now event store.old)
        × (store.new ≡ store_of g packet.now event store.old) }
{
    held(g, packet, store)?;
    let kind = kind_of(event)?;
    apply(g, kind, packet, event, store)
}

// One event of the packet.
pub fn gather(g: Gathering, packet: &[u8], event: Event, store: &mut [u8]) -> Gathered
    ensures { (given_gathered result ≡ gather_of g packet.now event store.old)
        × (store.new ≡ store_of g packet.now event store.old) }
{
    match next(g, packet, event, store) {
        Ok(gathering) => Gathered {
            verdict: Ok(()),
            gathering,
        },
        // the unit counts no bytes and is closed
        Err(Refusal::StoreFull) => Gathered {
            verdict: Err(Refusal::StoreFull),
            gathering: closed(0),
        },
        Err(e) => Gathered {
            verdict: Err(e),
            gathering: g,
        },
    }
}

// ---- the bytes so far

// Whether the bytes so far can be read out: 1, 2 and 14, also where they lie in the store.
#[tactic(auto, using(crate::proofs::Laws::held_laws))]
pub fn held(g: Gathering, packet: &[u8], store: &[u8]) -> Result<(), Refusal>
    ensures { given no_values result ≡ answer (read_of g packet.now store.now) [] }
{
    packet::try_new(packet)?;
    stands(g, store.len())
}

// The bytes so far: a part of the packet after a begin, otherwise of the store.
#[tactic(auto, using(bits::proofs::Refusals::refused_above), unfolding(crate::specs::Gather::held_bytes))]
pub fn bytes<'a>(g: Gathering, packet: &'a [u8], store: &'a [u8]) -> &'a [u8]
    ensures { result.now ≡ held_bytes g packet.now store.now }
{
    if held(g, packet, store).is_err() {
        return &[];
    }
    match g.lies {
        Lies::Packet(place) => part(packet, place, g.count),
        Lies::Store => part(store, 0, g.count),
    }
}
