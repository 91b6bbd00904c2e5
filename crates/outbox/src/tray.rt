// A tray is memory that is lent, with its fill. A record that is begun is a guard over the fill: whatever way leads
// out, the fill is put back unless the record was closed.
ghost use Rattle.std.specs.Prelude.{◌≡◌, unwrap_or};

// How many bytes of a tray's memory hold records that were sent.
#[derive(Clone, Copy, PartialEq, Eq, Debug)]
pub struct Fill {
    pub used: usize,
}

// Memory that is lent, and how much of it holds records that were sent.
#[derive(Drop)]
pub struct Tray<'a> {
    pub memory: &'a mut [u8],
    pub fill: Fill,
}

// A record that is begun, with the fill that is put back where it is not closed.
pub(crate) struct Draft<'a> {
    pub(crate) fill: &'a mut Fill,
    pub(crate) back_to: Option<usize>,
}

impl Drop for Draft<'_> {
    fn drop(self)
        ensures { self.exit.0.now.used ≡ unwrap_or self.entry.back_to self.entry.fill.now.used }
    {
        if let Some(start) = self.back_to {
            self.fill.used = start;
        }
        let Draft {
            fill: _,
            back_to: _,
        } = self;
    }
}
