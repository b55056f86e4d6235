// Packets in, lines on the page out.
ghost use Rattle.std.specs.Prelude.{◌≡◌, ◌≤◌, IfOk};

use crate::lines;
use bits::Refusal;
use machine::Machine;
use page::Page;
use std::io::Write;

// The log of one packet: it has at most three events, of eight bytes each.
const LOG: usize = 24;

// The machine after the packets so far, and the page with their lines.
#[derive(Drop)]
pub struct List<W> {
    pub page: Page<W>,
    machine: Machine,
}

// A step with an empty log, which has room for what one packet gives: so none is refused for want of room.
fn step(m: Machine, packet: &[u8], log: &mut [u8; LOG]) -> Result<Machine, Refusal>
    ensures room { result ≡ Err Refusal.LogFull → ⊥ }
    ensures within { IfOk result (λ m. m.place ≤ LOG) }
{
    let s = machine::step(Machine { place: 0, ..m }, packet, log);
    s.verdict?;
    Ok(s.machine)
}

impl<W: Write> List<W> {
    pub fn new(to: W) -> List<W> {
        let mut page = Page::new(to);
        lines::title(&mut page);
        List {
            page,
            machine: Machine::new(),
        }
    }

    // A packet's events.
    fn take(&mut self, packet: &[u8]) -> Result<(), Refusal> {
        let mut log = [0; LOG];
        self.machine = step(self.machine, packet, &mut log)?;
        lines::events(&mut self.page, &log[..self.machine.place]);
        Ok(())
    }

    // Every whole packet of the bytes, up to one that is refused.
    pub fn packets(&mut self, bytes: &[u8]) -> Result<(), Refusal> {
        for packet in bytes.chunks_exact(188) {
            self.take(packet)?;
        }
        Ok(())
    }

    // The end of the input: bytes that make no whole packet are refused as a packet of a wrong length.
    pub fn end(&mut self, tail: &[u8]) -> Result<(), Refusal> {
        if !tail.is_empty() {
            self.take(tail)?;
        }
        lines::packets(&mut self.page, self.machine.taken);
        Ok(())
    }

    // On a refusal the machine stays, so the packets that it has taken are as many as the packet's index.
    pub fn refused(&mut self, r: Refusal) {
        lines::refused(&mut self.page, self.machine.taken, r.number());
    }
}
