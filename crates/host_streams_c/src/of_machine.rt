// The exports of host_streams::of_machine.
ghost use Rattle.std.specs.Prelude.{◌≡◌, [], ◌∷◌};
ghost use Rattle.event_log.specs.Entry.{read_entry};
ghost use Rattle.machine.specs.declared.Mode.{Mode};
ghost use Rattle.machine.specs.Step.{fresh};
ghost use Rattle.host.specs.Reports.{Reports};
ghost use Rattle.machine.specs.Row.{row_of, row_step, row_step_of, row_run, row_run_of};

#[unsafe(no_mangle)]
pub extern "C" fn cmv_machine_fresh(state: &mut [u64; 7])
    ensures { state.new ≡ row_of (fresh Mode.Crate) }
{
    host_streams::of_machine::cmv_machine_fresh(state);
}

#[unsafe(no_mangle)]
pub extern "C" fn cmv_machine_standard(state: &mut [u64; 7])
    ensures { state.new ≡ row_of (fresh Mode.Standard) }
{
    host_streams::of_machine::cmv_machine_standard(state);
}

#[unsafe(no_mangle)]
pub extern "C" fn cmv_machine_step(state: &mut [u64; 7], packet: &[u8], log: &mut [u8]) -> u32
    ensures { row_step result state.new log.new
        ≡ row_step_of state.old packet.now log.old }
{
    host_streams::of_machine::cmv_machine_step(state, packet, log)
}

#[unsafe(no_mangle)]
pub extern "C" fn cmv_machine_run(
    state: &mut [u64; 7],
    bytes: &[u8],
    log: &mut [u8],
    taken: &mut u64,
    ended: &mut u64,
) -> u32
    ensures { row_run result state.new log.new taken.new ended.new
        ≡ row_run_of state.old bytes.now log.old taken.old ended.old }
{
    host_streams::of_machine::cmv_machine_run(state, bytes, log, taken, ended)
}

#[unsafe(no_mangle)]
pub extern "C" fn cmv_log_entry_at(
    log: &[u8],
    at: usize,
    kind: &mut u64,
    index: &mut u64,
    place: &mut u64,
    length: &mut u64,
) -> u32
    ensures { Reports (read_entry log.now at) result
        (kind.old ∷ index.old ∷ place.old ∷ length.old ∷ [])
        (kind.new ∷ index.new ∷ place.new ∷ length.new ∷ []) }
{
    host_streams::of_machine::cmv_log_entry_at(log, at, kind, index, place, length)
}
