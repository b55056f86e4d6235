// A program's output is gathered on a page, which is written when it is full: one system call for many lines. A write that fails is not
// reported here: the output keeps its error, and bytes are missing then.
#![tactic(auto)]

ghost use Rattle.std.specs.Prelude.{◌≡◌, IsNone, IsSome, take, replicate, ◌∷◌, []};
ghost use Rattle.std.specs.Io.KnownBytes.{Appends};
ghost use Rattle.page.specs.Page.{page_of, with_byte, with_bytes, Delivers};

use std::io;
use std::io::Write;

pub const PAGE: usize = 8192;

// Where the pages go, and the first error of a write, after which nothing more is written.
#[derive(Drop)]
pub struct Output<W> {
    pub to: W,
    pub error: Option<io::Error>,
}

impl<W: Write> Output<W> {
    fn write(&mut self, bytes: &[u8])
        ensures writes { IsNone self.new.error → Appends (W.contents self.old.to) (W.contents self.new.to) bytes.now }
        ensures failed { IsSome self.old.error → self.new ≡ self.old }
    {
        if self.error.is_none() {
            self.error = self.to.write_all(bytes).err();
        }
    }
}

// A page, of which so many bytes are used: they wait to be written. Fixed memory, so that a program cannot run out of it as it writes.
#[derive(Drop)]
pub struct Page<W> {
    pub out: Output<W>,
    pub bytes: [u8; PAGE],
    pub used: usize,
}

impl<W: Write> Page<W> {
    // An empty page.
    pub fn new(to: W) -> Page<W>
        ensures out { result.out ≡ record { to = to; error = None } }
        ensures page { page_of result.bytes result.used ≡ page_of (replicate PAGE 0) 0 }
    {
        Page {
            out: Output { to, error: None },
            bytes: [0; PAGE],
            used: 0,
        }
    }

    // Writes the used part, of which nothing is used then.
    pub fn flush(&mut self)
        ensures page { page_of self.new.bytes self.new.used ≡ page_of self.old.bytes 0 }
        ensures writes { IsNone self.new.out.error
            → Appends (W.contents self.old.out.to) (W.contents self.new.out.to) (take self.old.used self.old.bytes) }
        ensures failed { IsSome self.old.out.error → self.new.out ≡ self.old.out }
    {
        let used = self.used.min(PAGE);
        self.out.write(&self.bytes[..used]);
        self.used = 0;
    }

    // Adds a byte. A full page is written first.
    pub fn put(&mut self, b: u8)
        ensures page { page_of self.new.bytes self.new.used ≡ with_byte (page_of self.old.bytes self.old.used) b }
        ensures delivers { IsNone self.new.out.error
            → Delivers (W.contents self.old.out.to) (W.contents self.new.out.to)
            (take self.old.used self.old.bytes) (take self.new.used self.new.bytes) (b ∷ []) }
        ensures failed { IsSome self.old.out.error → self.new.out ≡ self.old.out }
    {
        if self.used >= PAGE {
            self.flush();
        }
        self.bytes[self.used] = b;
        self.used += 1;
    }

    // Adds bytes, one after another.
    pub fn text(&mut self, bytes: &[u8])
        ensures page { page_of self.new.bytes self.new.used ≡ with_bytes (page_of self.old.bytes self.old.used) bytes.now }
        ensures delivers { IsNone self.new.out.error
            → Delivers (W.contents self.old.out.to) (W.contents self.new.out.to)
            (take self.old.used self.old.bytes) (take self.new.used self.new.bytes) bytes.now }
        ensures failed { IsSome self.old.out.error → self.new.out ≡ self.old.out }
    {
        for b in bytes {
            self.put(*b);
        }
    }
}
