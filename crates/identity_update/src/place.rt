//! Places in a document.
ghost use Rattle.std.specs.Prelude.{◌≡◌, ◌≤◌, length};
ghost use Rattle.identity_update.specs.Place.{IsWithin, part};

/// From where to where a part of a document stands. A document has fewer than 2^32 bytes.
#[derive(Clone, Copy, Debug)]
pub(crate) struct Place {
    pub(crate) start: u32,
    pub(crate) end: u32,
}

impl Place {
    /// The part of the document.
    pub(crate) fn of<'a>(&self, document: &'a [u8]) -> &'a [u8]
        requires { IsWithin document.now self.now }
        ensures { result.now ≡ part document.now self.now }
    {
        &document[self.start as usize..self.end as usize]
    }
}
