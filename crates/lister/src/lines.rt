// The lines of the list.
use bits::Refusal;
use event_log::{Event, EventKind};
use itoa::{Buffer, Integer};
use page::Page;
use std::io::Write;

fn decimal(page: &mut Page<impl Write>, n: impl Integer) {
    page.text(Buffer::new().format(n).as_bytes());
}

pub fn title(page: &mut Page<impl Write>) {
    page.text(b"packet event place length\n");
}

// The name of an event, between spaces.
fn name(kind: EventKind) -> &'static [u8] {
    match kind {
        EventKind::StartStream => b" start ",
        EventKind::BeginPacket => b" begin ",
        EventKind::ContinuePacket => b" continue ",
        EventKind::EndPacket => b" end ",
        EventKind::ContinuityError => b" error ",
    }
}

fn event(page: &mut Page<impl Write>, kind: EventKind, e: Event) {
    decimal(page, e.index);
    page.text(name(kind));
    decimal(page, e.place);
    page.put(b' ');
    decimal(page, e.length);
    page.put(b'\n');
}

// An entry; nothing where it is none, as the machine writes none such.
fn entry(page: &mut Page<impl Write>, bytes: &[u8]) -> Result<(), Refusal> {
    let e = event_log::entry_at(bytes, 0)?;
    event(page, EventKind::try_from(e.kind)?, e);
    Ok(())
}

// The entries of a packet, of eight bytes each.
pub fn events(page: &mut Page<impl Write>, log: &[u8]) {
    for bytes in log.chunks_exact(8) {
        let _ = entry(page, bytes);
    }
}

pub fn refused(page: &mut Page<impl Write>, index: u32, number: u8) {
    decimal(page, index);
    page.text(b" refused ");
    decimal(page, number);
    page.put(b'\n');
}

pub fn packets(page: &mut Page<impl Write>, count: u32) {
    page.text(b"packets ");
    decimal(page, count);
    page.put(b'\n');
}
