//! Where a conjunct of the condition of an EXISTS stands.

/// Says where a conjunct stands: before the EXISTS, inside it, or after it.
#[derive(Clone, Copy, Debug)]
pub enum Place {
    Before,
    Inside,
    After,
}
