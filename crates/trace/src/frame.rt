// The frame that is being read: how much of it is there, and its front.
ghost use Rattle.std.specs.Prelude.{◌<◌, ◌≤◌};

/// How many bytes of a frame are kept: enough for the ids and the names at its front.
const KEPT: usize = 256;

/// The bytes of a frame's tag and length.
const HEADER: u64 = 5;

/// A frame of which some bytes came.
#[derive(Clone, Copy, Debug)]
pub struct Frame {
    front: [u8; KEPT],
    /// How many bytes stand in `front`.
    kept: usize,
    /// How many bytes came.
    came: u64,
    ghost within: { kept ≤ 256 },
}

impl Frame {
    /// A frame of which nothing came.
    pub const fn new() -> Frame {
        Frame {
            front: [0; KEPT],
            kept: 0,
            came: 0,
        }
    }

    /// The bytes at its front that are kept.
    pub fn front(&self) -> &[u8] {
        &self.front[..self.kept]
    }

    /// How many bytes come before its edge, or before its length is known.
    pub fn missing(&self) -> u64
        ensures some { 0 < result }
    {
        let end = if self.came < HEADER {
            HEADER
        } else {
            self.length()
        };
        end.saturating_sub(self.came).max(1)
    }

    /// Whether all of it came.
    pub fn is_whole(&self) -> bool {
        HEADER <= self.came && self.length() <= self.came
    }

    /// How many bytes it has, by its header.
    fn length(&self) -> u64 {
        let front = &self.front;
        u64::from(u32::from_be_bytes([front[1], front[2], front[3], front[4]])) + 1
    }

    /// Takes bytes of it that came.
    pub fn push(&mut self, bytes: &[u8]) {
        self.came = self.came.saturating_add(bytes.len() as u64);
        for byte in bytes {
            if self.kept == KEPT {
                return;
            }
            self.front[self.kept] = *byte;
            self.kept += 1;
        }
    }
}
