//! Bytes by which a text is looked up.
ghost use Rattle.std.specs.Str.{bytes_eq};
ghost use Rattle.tap_base.specs.Bytes.{text_writes};

use crate::Text;
use indexmap::Equivalent;
use std::alloc::AllocError;
use std::hash::{Hash, Hasher};

/// The bytes of a text by which a map of texts is searched, without a copy. They hash as the text
/// does.
pub struct TextBytes<'a>(pub &'a [u8]);

impl<'a> Clone for TextBytes<'a> {
    ghost use Rattle.std.specs.Prelude.{◌≡◌, ⊤};

    ghost is_clone = { λ x y. y ≡ x };

    ghost is_infallible = { λ _. ⊤ };

    fn clone(&self) -> Result<TextBytes<'a>, AllocError> {
        Ok(*self)
    }
}

impl<'a> Copy for TextBytes<'a> {}

impl<'a> PartialEq for TextBytes<'a> {
    ghost use Rattle.std.specs.Cmp.{partial_equiv_from_equiv, on_equiv, nat_eq_equiv};
    ghost use Rattle.std.specs.Cmp.Lexicographic.{lists_equiv};

    ghost eq = { λ x y. bytes_eq x.0.now y.0.now };

    ghost laws = { partial_equiv_from_equiv (on_equiv (λ x. x.0.now) (lists_equiv nat_eq_equiv)) };

    fn eq(&self, other: &TextBytes<'a>) -> bool {
        self.0 == other.0
    }
}

impl<'a> Eq for TextBytes<'a> {
    ghost use Rattle.std.specs.Cmp.{on_equiv, nat_eq_equiv};
    ghost use Rattle.std.specs.Cmp.Lexicographic.{lists_equiv};

    ghost laws = { on_equiv (λ x. x.0.now) (lists_equiv nat_eq_equiv) };
}

impl<'a> Hash for TextBytes<'a> {
    ghost use Rattle.std.specs.Hash.{same_Alike, on_Alike};
    ghost use Rattle.std.specs.Cmp.Lexicographic.{bytes_decides};

    ghost hash_input = { λ x. text_writes x.0.now };

    ghost respects_eq = { (on_Alike (λ x. x.0.now) (same_Alike text_writes bytes_decides)).fed };

    fn hash<H: Hasher>(&self, state: &mut H) {
        state.write(self.0);
    }
}

impl<'a> Equivalent<Text> for TextBytes<'a> {
    ghost use Rattle.std.specs.Hash.{same_Alike};
    ghost use Rattle.std.specs.Cmp.{nat_eq_equiv};
    ghost use Rattle.std.specs.Cmp.Lexicographic.{bytes_decides, lists_equiv};

    ghost equivalent = { λ x text. bytes_eq x.0.now text };

    ghost respects_hash = { λ x text. (same_Alike text_writes bytes_decides).fed x.0.now text };

    ghost respects_eq = { λ x a b. (lists_equiv nat_eq_equiv).congr x.0.now a b };

    fn equivalent(&self, key: &Text) -> bool {
        self.0 == key.as_slice()
    }
}
