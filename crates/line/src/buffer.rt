// The bytes of one line as they come in, in memory that is reserved once.
ghost use Rattle.std.specs.Prelude.{◌≡◌, [], IfOk, Some};
ghost use Rattle.line.specs.Buffer.{extended, read_held};

use crate::calls::{Call, NotCall};
use crate::reading::read;
use std::alloc::{AllocError, Global};
use std::marker::Model;

// The most bytes that a line may have.
pub const LINE_LIMIT: usize = 4096;

// The line so far: the bytes that came, unless they are more than a line may have.
// The flag stands beside the bytes, since an `Option` of them would give their memory back, and no call may reserve it again.
#[derive(Drop)]
pub struct LineBuffer {
    bytes: Vec<u8>,
    overlong: bool,
}

impl Model for LineBuffer {
    ghost use Rattle.std.specs.Prelude.{ℕ, ◌≤◌, cond, List, Option, Some, None, vec_len, vec_capacity};
    ghost use Rattle.line.specs.Limits.{line_limit};

    ghost Value = { Option (List ℕ) };

    ghost view = { λ b. cond b.overlong None (Some b.bytes.items) };

    ghost invariant = { λ b. (vec_len b.bytes ≤ line_limit) × (line_limit ≤ vec_capacity b.bytes) };
}

impl LineBuffer {
    // An empty buffer, with room for the longest line.
    pub fn new(heap: Global) -> Result<LineBuffer, AllocError>
        ensures { IfOk result (λ b. b ≡ Some []) }
    {
        let bytes = Vec::with_capacity(heap, LINE_LIMIT)?;
        Ok(LineBuffer {
            bytes,
            overlong: false,
        })
    }

    // Adds the bytes of `part` to the line.
    pub fn add(&mut self, part: &[u8])
        ensures { self.new ≡ extended self.old part.now }
    {
        if part.len() <= LINE_LIMIT - self.bytes.len() {
            // there is room, so that this neither allocates nor fails
            let _ = self.bytes.extend_from_slice(part);
        } else {
            self.overlong = true;
        }
    }

    // Reads the line so far, and empties the buffer for the next.
    pub fn finish(&mut self) -> Result<Option<Call>, NotCall>
        ensures answer { result ≡ read_held self.old }
        ensures after { self.new ≡ Some [] }
    {
        let answer = if self.overlong {
            Err(NotCall::TooLong)
        } else {
            read(&self.bytes)
        };
        self.bytes.clear();
        self.overlong = false;
        answer
    }
}
