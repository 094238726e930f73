//! The words of a line by their places, which blanks (spaces and tabs) separate.
ghost use Rattle.std.specs.Prelude.{◌≡◌, ◌≤◌, ◌<◌, length, IsTrue};
ghost use Rattle.std.specs.List.{position_or_len, prefix_len};
ghost use Rattle.tap_base.specs.Bytes.{is_blank};
ghost use Rattle.tap_base.specs.LineWords.{after_blanks, after_word, after_words, first_word, word};
ghost use Rattle.tap_base.specs.LineWords.{is_skipped, has_words, IsWordPlace};

/// Returns whether the byte is a blank: a space or a tab.
pub fn is_blank_byte(b: u8) -> bool
    ensures { result ≡ is_blank b }
{
    b == b' ' || b == b'\t'
}

/// Returns how many bytes come before the first blank; all of them if there is no blank.
pub fn blank_place(bytes: &[u8]) -> usize
    ensures value { result ≡ position_or_len is_blank bytes.now }
    ensures within { result ≤ length bytes.now }
{
    for (i, b) in bytes.iter().enumerate() {
        if is_blank_byte(*b) {
            return i;
        }
    }
    bytes.len()
}

// Returns how many blanks are at the front.
fn blanks_len(bytes: &[u8]) -> usize
    ensures value { result ≡ prefix_len is_blank bytes.now }
    ensures within { result ≤ length bytes.now }
{
    for (i, b) in bytes.iter().enumerate() {
        if !is_blank_byte(*b) {
            return i;
        }
    }
    bytes.len()
}

/// Returns what follows the blanks at the front.
pub fn skip_blanks(text: &[u8]) -> &[u8]
    ensures { result.now ≡ after_blanks text.now }
{
    &text[blanks_len(text)..]
}

// Returns what follows the word at the front.
fn skip_word(text: &[u8]) -> &[u8]
    ensures { result.now ≡ after_word text.now }
{
    &text[blank_place(text)..]
}

/// Returns what follows the first `n` words of a line and the blanks after them. A line of the
/// script language has fewer than 8 words that are read by their places, which bounds the
/// recursion.
pub fn skip_words(line: &[u8], n: usize) -> &[u8]
    requires { IsWordPlace n }
    ensures { result.now ≡ after_words n line.now }
{
    if n == 0 {
        skip_blanks(line)
    } else {
        skip_blanks(skip_word(skip_words(line, n - 1)))
    }
}

/// Returns the word of place `n`, from 0, in a line. It is empty if there is none.
pub fn nth_word(line: &[u8], n: usize) -> &[u8]
    requires { IsWordPlace n }
    ensures { result.now ≡ word n line.now }
{
    let text = skip_words(line, n);
    &text[..blank_place(text)]
}

/// Returns whether the line has exactly `n` words.
pub fn has_words(line: &[u8], n: usize) -> bool
    requires some { 0 < n }
    requires few { IsWordPlace n }
    ensures { result ≡ has_words n line.now }
{
    !nth_word(line, n - 1).is_empty() && nth_word(line, n).is_empty()
}

/// Returns whether a line is skipped: it has no words, or its first word begins with `#`.
pub fn is_blank_or_comment(line: &[u8]) -> bool
    ensures { result ≡ is_skipped line.now }
{
    let word = nth_word(line, 0);
    word.is_empty() || word.first() == Some(&b'#')
}
