// A listing is a lent buffer and, beside it, a record of how much of it is kept.
ghost use Rattle.std.specs.Prelude.{◌≡◌, IfErr, unwrap_or};
ghost use Rattle.listing.specs.Kept.{Adds};

// How many bytes of the buffer are kept, from its first byte on.
#[derive(Drop)]
pub(crate) struct Kept {
    pub(crate) len: usize,
}

// A lent buffer and the record of how much of it is kept.
#[derive(Drop)]
pub(crate) struct Listing<'a> {
    pub(crate) buf: &'a mut [u8],
    pub(crate) kept: Kept,
}

// The text does not fit.
#[derive(Clone, Copy)]
pub(crate) struct NoRoom;

// A line that is begun: a guard over the length record, with the buffer beside it.
pub(crate) struct Line<'a> {
    pub(crate) kept: &'a mut Kept,
    pub(crate) buf: &'a mut [u8],
    // The length where the line began; none once the line is closed.
    pub(crate) back_to: Option<usize>,
}

// A line that was not closed is withdrawn: the length is again what it was where the line began.
impl Drop for Line<'_> {
    fn drop(self)
        ensures len { self.exit.0.now.len ≡ unwrap_or self.entry.back_to self.entry.kept.now.len }
        ensures bytes { self.exit.1.0.now ≡ self.entry.buf.now }
    {
        let Line {
            kept,
            buf: _,
            back_to,
        } = self;
        if let Some(start) = back_to {
            kept.len = start;
        }
    }
}

impl Line<'_> {
    // Appends the text whole; where it does not fit, the buffer and the length are as they were (`same`).
    pub(crate) fn add(&mut self, text: &[u8]) -> Result<(), NoRoom>
        ensures adds { Adds result self.old text.now self.new }
        ensures same { IfErr result (λ _. (self.new.buf.now ≡ self.old.buf.now) × (self.new.kept.now.len ≡ self.old.kept.now.len)) }
    {
        let at = self.kept.len;
        let room = self.buf.len();
        if at > room || text.len() > room - at {
            return Err(NoRoom);
        }
        let end = at + text.len();
        self.buf[at..end].copy_from_slice(text);
        self.kept.len = end;
        Ok(())
    }
}
