// The gathering store. The host keeps a state as a row of numbers and lends it (gather::row).
ghost use Rattle.std.specs.Prelude.{◌≡◌, [], ◌∷◌};
ghost use Rattle.bits.specs.Refused.{given};
ghost use Rattle.event_log.specs.Entry.{event};
ghost use Rattle.gather.specs.Gather.{emptied};
ghost use Rattle.gather.specs.Row.{gathering_row, part_values, row_gather, row_gather_of, row_held};
ghost use Rattle.host.specs.Reports.{Reports};

use crate::strayed;
use bits::Refusal;
use event_log::Event;
use gather::{Gathering, Lies, row};
use host::told::{Told, report, report_three, word};

// The row of a state before its first event, with no unit (Gathering::new): 0, 0, 255
pub fn cmv_gather_fresh(state: &mut [u64; 3])
    ensures { state.new ≡ gathering_row emptied }
{
    row::write(Gathering::new(), state);
}

// gather::gather over a lent row, of an event by its kind, place and length. On 0 and on 20 the row of the next state is written, on any
// other refusal nothing is.
#[tactic(auto, using(crate::proofs::Rows::gather_laws), unfolding(gather::specs::Row::row_gather_of))]
pub fn cmv_gather(
    state: &mut [u64; 3],
    packet: &[u8],
    kind: u8,
    place: u8,
    length: u8,
    store: &mut [u8],
) -> u32
    ensures { row_gather result state.new store.new
        ≡ row_gather_of state.old packet.now (event kind 0 place length) store.old }
{
    let Some(g) = row::read(state) else {
        return word(strayed(packet));
    };
    let event = Event {
        kind,
        index: 0,
        place,
        length,
    };
    let r = gather::gather(g, packet, event, store);
    match r.verdict {
        Ok(()) | Err(Refusal::StoreFull) => {
            row::write(r.gathering, state);
            report(r.verdict)
        }
        Err(e) => word(e),
    }
}

// The bytes of a state, as a part of one of two slices.
#[derive(Clone, Copy)]
struct Bytes(Gathering);

impl Told<3> for Bytes {
    // of which slice, 0 the packet and 1 the store; its place; its length
    ghost values = { λ h. part_values h.0.lies h.0.count };

    fn told(self) -> [u64; 3] {
        let length = self.0.count as u64;
        match self.0.lies {
            Lies::Packet(place) => [0, place as u64, length],
            Lies::Store => [1, 0, length],
        }
    }
}

#[tactic(auto, using(crate::proofs::Rows::refused_alike), unfolding(gather::specs::Row::row_held))]
fn held(state: &[u64; 3], packet: &[u8], store: &[u8]) -> Result<Bytes, Refusal>
    ensures { given (λ h. part_values h.0.lies h.0.count) result ≡ row_held state.now packet.now store.now }
{
    let Some(g) = row::read(state) else {
        return Err(strayed(packet));
    };
    gather::held(g, packet, store)?;
    Ok(Bytes(g))
}

// The bytes so far (gather::held and gather::bytes): of which slice they are a part, 0 the packet and 1 the store, and the place and
// length of the part.
pub fn cmv_gather_bytes(
    state: &[u64; 3],
    packet: &[u8],
    store: &[u8],
    slice: &mut u64,
    place: &mut u64,
    length: &mut u64,
) -> u32
    ensures { Reports (row_held state.now packet.now store.now) result
        (slice.old ∷ place.old ∷ length.old ∷ [])
        (slice.new ∷ place.new ∷ length.new ∷ []) }
{
    report_three(held(state, packet, store), slice, place, length)
}
