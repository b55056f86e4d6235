// A line of the input: two hex digits to a byte, put together as they come.
ghost use Rattle.std.specs.Prelude.{◌≤◌, IfSome, length};

// The most bytes of a query.
const ROOM: usize = 256;

fn digit(b: u8) -> Option<u8> {
    match b {
        b'0'..=b'9' => Some(b - b'0'),
        b'a'..=b'f' => Some(b - b'a' + 10),
        _ => None,
    }
}

// The line under way, and how many digits it has: none where it is spoilt, by what is no digit or by too many.
#[derive(Drop)]
pub struct Line {
    bytes: [u8; ROOM],
    digits: Option<usize>,
}

impl Line {
    pub fn new() -> Line {
        Line {
            bytes: [0; ROOM],
            digits: Some(0),
        }
    }

    pub fn is_empty(&self) -> bool {
        self.digits == Some(0)
    }

    // Begins the next line.
    pub fn clear(&mut self) {
        self.digits = Some(0);
    }

    // Adds a digit.
    pub fn push(&mut self, b: u8) {
        self.digits = self.pushed(b);
    }

    // How many digits there are with one more.
    fn pushed(&mut self, b: u8) -> Option<usize> {
        let digits = self.digits?;
        let digit = digit(b)?;
        let byte = self.bytes.get_mut(digits / 2)?;
        *byte = if digits % 2 == 0 {
            digit << 4
        } else {
            *byte | digit
        };
        Some(digits + 1)
    }

    // The bytes that the digits make.
    pub fn query(&self) -> Option<&[u8]>
        ensures { IfSome result (λ bytes. length bytes.now ≤ 256) }
    {
        let digits = self.digits?;
        if digits % 2 == 1 {
            return None;
        }
        self.bytes.get(..digits / 2)
    }
}
