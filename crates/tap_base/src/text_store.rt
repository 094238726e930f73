//! Where the bytes of a text are.
ghost use Rattle.std.specs.Prelude.{◌≡◌, ◌++◌, OnOk, OnErr, IfOk, take};
ghost use Rattle.std.specs.Str.{str_to_ascii_lowercase};
ghost use Rattle.tap_base.specs.Stores.{stored};

use crate::Memory;
use crate::short_bytes::{SHORT_LEN, ShortBytes};
use std::alloc::Global;

// Where the bytes of a text are: few lie in the value itself, more in an allocation.
#[derive(Drop)]
pub(crate) enum TextStore {
    Short(ShortBytes),
    Long(Vec<u8>),
}

pub(crate) fn store_of(alloc: Global, bytes: &[u8]) -> Result<TextStore, Memory>
    ensures { IfOk result (λ store. stored store ≡ bytes.now) }
{
    if bytes.len() <= SHORT_LEN {
        Ok(TextStore::Short(ShortBytes::of(bytes)))
    } else {
        Ok(TextStore::Long(Vec::from_slice(alloc, bytes)?))
    }
}

// Returns a store of these bytes with A to Z lowered.
pub(crate) fn lowered_store(alloc: Global, bytes: &[u8]) -> Result<TextStore, Memory>
    ensures { IfOk result (λ store. stored store ≡ str_to_ascii_lowercase bytes.now) }
{
    if bytes.len() <= SHORT_LEN {
        Ok(TextStore::Short(ShortBytes::lowered(bytes)))
    } else {
        let mut long = Vec::from_slice(alloc, bytes)?;
        long.make_ascii_lowercase();
        Ok(TextStore::Long(long))
    }
}

// Returns a store of these bytes and those after them.
fn joined_store(alloc: Global, front: &[u8], back: &[u8]) -> Result<TextStore, Memory>
    ensures { IfOk result (λ store. stored store ≡ front.now ++ back.now) }
{
    let len = front.len().saturating_add(back.len());
    if len <= SHORT_LEN {
        Ok(TextStore::Short(ShortBytes::joined(front, back)))
    } else {
        let mut long = Vec::with_capacity(alloc, len)?;
        long.extend_from_slice(front)?;
        long.extend_from_slice(back)?;
        Ok(TextStore::Long(long))
    }
}

impl TextStore {
    // Returns all bytes.
    pub(crate) fn as_slice(&self) -> &[u8]
        ensures { result.now ≡ stored self.now }
    {
        match self {
            TextStore::Short(short) => short.as_slice(),
            TextStore::Long(long) => long.as_slice(),
        }
    }

    // Appends these bytes. The store is unchanged if this fails.
    pub(crate) fn push(&mut self, alloc: Global, bytes: &[u8]) -> Result<(), Memory>
        ensures ok { OnOk result (stored self.new ≡ stored self.old ++ bytes.now) }
        ensures err { OnErr result (stored self.new ≡ stored self.old) }
    {
        if let TextStore::Long(long) = self {
            long.extend_from_slice(bytes)?;
            return Ok(());
        }
        *self = joined_store(alloc, self.as_slice(), bytes)?;
        Ok(())
    }

    // Removes all bytes but the first `len`.
    pub(crate) fn cut(&mut self, len: usize)
        ensures { stored self.new ≡ take len (stored self.old) }
    {
        match self {
            TextStore::Short(short) => short.cut(len),
            TextStore::Long(long) => long.truncate(len),
        }
    }
}
