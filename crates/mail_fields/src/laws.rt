//! Laws of the fields of a message.
ghost use Rattle.std.specs.Prelude.{◌≡◌, List, [], ℕ};
ghost use Rattle.std.specs.List.{flat_map};
ghost use Rattle.tap_base.specs.Words.{has_text};
ghost use Rattle.tap_rows.specs.Entries.{comma_parts};
ghost use Rattle.tap_rows.specs.Fields.{distinct_entries};
ghost use Rattle.mail_fields.specs.Quotes.{parts_after};

/// States that a comma cuts a value if and only if the number of quotes before it in the value is
/// even.
pub fn commas_cut_after_an_even_number_of_quotes()
    ensures { (value : List ℕ) → comma_parts value ≡ parts_after [] value }
{}

/// States that a text is one of the distinct entries of some values if and only if it is one of
/// their entries.
pub fn distinct_entries_are_the_entries()
    ensures { (entries : List ℕ → List (List ℕ)) → (values : List (List ℕ)) → (text : List ℕ)
        → has_text (distinct_entries entries values) text
        ≡ has_text (flat_map entries values) text }
{}
