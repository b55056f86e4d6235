// The writer. The host lends a unit as a row of numbers (writer::row).
ghost use Rattle.std.specs.Prelude.{◌≡◌, [], ◌∷◌};
ghost use Rattle.bits.specs.Refused.{given, number_values};
ghost use Rattle.writer.specs.Row.{route, row_write_of, row_output_of};
ghost use Rattle.host.specs.Reports.{Reports};

use bits::Refusal;
use host::told::report_one;
use writer::{Route, row};

// The number of packets that the unit was written as.
#[tactic(auto, unfolding(writer::specs::Row::row_write_of, writer::specs::Row::row_output_of))]
fn written(route: Route, unit: &[u64; 20], payload: &[u8], out: &mut [u8]) -> Result<u64, Refusal>
    ensures { (given number_values result ≡ row_write_of route unit.now payload.now out.old)
        × (out.new ≡ row_output_of route unit.now payload.now out.old) }
{
    let unit = row::read(unit).ok_or(Refusal::OutOfRange)?;
    let count = writer::write(route, unit, payload, out)?;
    Ok(count as u64)
}

// writer::write of the unit that a row stands for: on 0 the number of packets is reported. A row that stands for no unit is 14, before
// what the writer refuses.
pub fn cmv_write(
    pid: u16,
    counter: u8,
    unit: &[u64; 20],
    payload: &[u8],
    out: &mut [u8],
    count: &mut u64,
) -> u32
    ensures { Reports (row_write_of (route pid counter) unit.now payload.now out.old) result
        (count.old ∷ []) (count.new ∷ [])
        × (out.new ≡ row_output_of (route pid counter) unit.now payload.now out.old) }
{
    report_one(written(Route { pid, counter }, unit, payload, out), count)
}
