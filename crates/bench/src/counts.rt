// What was read.

ghost use Rattle.std.specs.Prelude.{◌≡◌, ◌+◌, ◌-◌, ◌^◌, min};

/// How many items were read, and how many bytes of payload they carried, each up to `u64::MAX`.
#[derive(Clone, Copy, Debug)]
pub struct Counts {
    pub items: u64,
    pub bytes: u64,
}

impl Counts {
    /// Nothing was read yet.
    pub fn new() -> Counts
        ensures { result ≡ record { items = 0; bytes = 0 } }
    {
        Counts { items: 0, bytes: 0 }
    }

    /// Counts one more item, which carried so many bytes.
    pub fn add(&mut self, bytes: usize)
        ensures items { self.new.items ≡ min (self.old.items + 1) (2 ^ 64 - 1) }
        ensures bytes { self.new.bytes ≡ min (self.old.bytes + bytes) (2 ^ 64 - 1) }
    {
        self.items = self.items.saturating_add(1);
        self.bytes = self.bytes.saturating_add(bytes as u64);
    }
}
