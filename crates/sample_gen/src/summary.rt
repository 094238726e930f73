//! The lines that sum up a sample.
ghost use Rattle.std.specs.Prelude.{◌≡◌, ◌≤◌, ◌+◌, ◌++◌, codes};
ghost use Rattle.std.specs.Fmt.{decimal};
ghost use Rattle.arrayvec.specs.ArrayVec.{array_vec_len};
ghost use Rattle.script_lang.specs.Replies.{line, IsShortWord};
ghost use Rattle.sample_gen.specs.Summaries.{count_line, summary_lines};

use arrayvec::ArrayVec;
use itoa::Integer;
use script_lang::{push_bytes, push_number};

/// The counts of a sample.
#[derive(Clone, Copy, Debug, PartialEq, Eq)]
pub struct Summary {
    pub messages: u32,
    pub commands: usize,
    /// The commands that were refused.
    pub refused: usize,
    /// The documents that are stored at the end.
    pub documents: u32,
    /// The notes that are stored at the end.
    pub notes: u32,
    /// The deliveries of all runs together.
    pub delivered: u64,
}

// Appends a line of a name and a number.
fn push_count<I: Integer>(buffer: &mut ArrayVec<u8, 512>, name: &[u8], n: I)
    requires short { IsShortWord name.now }
    requires room { array_vec_len buffer.old + 51 ≤ 512 }
    ensures bytes { buffer.new.items ≡ buffer.old.items ++ line (name.now ++ I.text n) }
    ensures short { array_vec_len buffer.new ≤ array_vec_len buffer.old + 51 }
{
    push_bytes(buffer, name);
    push_number(buffer, n);
    push_bytes(buffer, b"\n");
}

impl Summary {
    /// Returns the six lines of the summary. It takes no memory.
    pub fn lines(&self) -> ArrayVec<u8, 512>
        ensures { result.items ≡ summary_lines self.now }
    {
        let mut buffer = ArrayVec::new();
        push_count(&mut buffer, b"sample ", self.messages);
        push_count(&mut buffer, b"commands ", self.commands);
        push_count(&mut buffer, b"refused ", self.refused);
        push_count(&mut buffer, b"documents ", self.documents);
        push_count(&mut buffer, b"notes ", self.notes);
        push_count(&mut buffer, b"delivered ", self.delivered);
        buffer
    }
}
