//! Few bytes, which lie in the value itself.
ghost use Rattle.std.specs.Prelude.{◌≡◌, ◌++◌, ◌+◌, ◌≤◌, length, take};
ghost use Rattle.std.specs.Str.{str_to_ascii_lowercase};

use std::marker::Model;

/// How many bytes lie in the value itself at most.
pub(crate) const SHORT_LEN: usize = 30;

/// At most `SHORT_LEN` bytes, in the value itself.
#[derive(Drop)]
pub(crate) struct ShortBytes {
    len: u8,
    // The bytes, and zeros behind them.
    array: [u8; SHORT_LEN],
}

impl Model for ShortBytes {
    ghost use Rattle.std.specs.Prelude.{◌≡◌, ◌≤◌, List, ℕ, length, take};

    ghost Value = { List ℕ };

    ghost view = { λ short. take short.len short.array };

    ghost invariant = { λ short. (short.len ≤ 30) × (length short.array ≡ 30) };
}

impl ShortBytes {
    pub(crate) fn of(bytes: &[u8]) -> ShortBytes
        requires { length bytes.now ≤ 30 }
        ensures { result ≡ bytes.now }
    {
        let mut array = [0; SHORT_LEN];
        array[..bytes.len()].copy_from_slice(bytes);
        ShortBytes {
            len: bytes.len() as u8,
            array,
        }
    }

    // Returns these bytes and those after them.
    pub(crate) fn joined(front: &[u8], back: &[u8]) -> ShortBytes
        requires { length front.now + length back.now ≤ 30 }
        ensures { result ≡ front.now ++ back.now }
    {
        let mut array = [0; SHORT_LEN];
        let mid = front.len();
        let end = mid + back.len();
        array[..mid].copy_from_slice(front);
        array[mid..end].copy_from_slice(back);
        ShortBytes {
            len: end as u8,
            array,
        }
    }

    // Returns these bytes with A to Z lowered.
    pub(crate) fn lowered(bytes: &[u8]) -> ShortBytes
        requires { length bytes.now ≤ 30 }
        ensures { result ≡ str_to_ascii_lowercase bytes.now }
    {
        let mut array = [0; SHORT_LEN];
        array[..bytes.len()].copy_from_slice(bytes);
        array[..bytes.len()].make_ascii_lowercase();
        ShortBytes {
            len: bytes.len() as u8,
            array,
        }
    }

    // Returns all bytes.
    pub(crate) fn as_slice(&self) -> &[u8]
        ensures { result.now ≡ self.now }
    {
        &self.array[..self.len as usize]
    }

    // Returns how many bytes there are.
    pub(crate) fn len(&self) -> usize
        ensures value { result ≡ length self.now }
        ensures short { result ≤ 30 }
    {
        self.len as usize
    }

    // Removes all bytes but the first `len`.
    pub(crate) fn cut(&mut self, len: usize)
        ensures { self.new ≡ take len self.old }
    {
        if len < self.len as usize {
            self.len = len as u8;
        }
    }
}
