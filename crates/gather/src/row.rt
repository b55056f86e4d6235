// A gathering state as the row of numbers that a host keeps and lends: whether a unit is open, 0 or 1; how many bytes it has; and where
// they lie, a place of the packet or 255 for the store.
ghost use Rattle.std.specs.Prelude.{◌≡◌};
ghost use Rattle.gather.specs.Row.{lies_of, lies_number, gathering_of, gathering_row};

use crate::{Gathering, Lies};

impl From<u64> for Lies {
    ghost from_gives = { λ n lies. lies ≡ lies_of n };

    fn from(n: u64) -> Lies {
        if n == 255 {
            return Lies::Store;
        }
        Lies::Packet(n as usize)
    }
}

impl From<Lies> for u64 {
    ghost from_gives = { λ lies n. n ≡ lies_number lies };

    fn from(lies: Lies) -> u64 {
        match lies {
            Lies::Packet(place) => place as u64,
            Lies::Store => 255,
        }
    }
}

// The gathering state that a row stands for, if for one.
#[tactic(auto, unfolding(crate::specs::Row::gathering_of))]
pub fn read(row: &[u64; 3]) -> Option<Gathering>
    ensures { result ≡ gathering_of row.now }
{
    let [opened, count, lies] = *row;
    if 1 < opened {
        return None;
    }
    Some(Gathering {
        opened: opened == 1,
        count: count as usize,
        lies: Lies::from(lies),
    })
}

#[tactic(auto, unfolding(crate::specs::Row::gathering_row))]
pub fn write(g: Gathering, row: &mut [u64; 3])
    ensures { row.new ≡ gathering_row g }
{
    *row = [u64::from(g.opened), g.count as u64, u64::from(g.lies)];
}
