// The exports of host_streams::of_gather.
ghost use Rattle.std.specs.Prelude.{◌≡◌, [], ◌∷◌};
ghost use Rattle.event_log.specs.Entry.{event};
ghost use Rattle.gather.specs.Gather.{emptied};
ghost use Rattle.gather.specs.Row.{gathering_row, row_gather, row_gather_of, row_held};
ghost use Rattle.host.specs.Reports.{Reports};

#[unsafe(no_mangle)]
pub extern "C" fn cmv_gather_fresh(state: &mut [u64; 3])
    ensures { state.new ≡ gathering_row emptied }
{
    host_streams::of_gather::cmv_gather_fresh(state);
}

#[unsafe(no_mangle)]
pub extern "C" fn cmv_gather(
    state: &mut [u64; 3],
    packet: &[u8],
    kind: u8,
    place: u8,
    length: u8,
    store: &mut [u8],
) -> u32
    ensures { row_gather result state.new store.new
        ≡ row_gather_of state.old packet.now (event kind 0 place length) store.old }
{
    host_streams::of_gather::cmv_gather(state, packet, kind, place, length, store)
}

#[unsafe(no_mangle)]
pub extern "C" fn cmv_gather_bytes(
    state: &[u64; 3],
    packet: &[u8],
    store: &[u8],
    slice: &mut u64,
    place: &mut u64,
    length: &mut u64,
) -> u32
    ensures { Reports (row_held state.now packet.now store.now) result
        (slice.old ∷ place.old ∷ length.old ∷ [])
        (slice.new ∷ place.new ∷ length.new ∷ []) }
{
    host_streams::of_gather::cmv_gather_bytes(state, packet, store, slice, place, length)
}
