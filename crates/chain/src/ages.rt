ghost use Rattle.std.specs.Prelude.{◌≡◌, ℕ, ◌<◌, length, if◌then◌else◌, nat_eq};
ghost use Rattle.chain.specs.Ages.{older};

// The ages of up to four buffers, by the buffer's number. An age is told as one byte: n for the frame of n shows ago, 255
// for that and any older, 0 for contents that are unknown. A place past the chain's buffers stays 0.
#[derive(Clone, Copy)]
pub struct Ages {
    pub by_buffer: [u8; 4],
    ghost long: { length by_buffer ≡ 4 },
}

// An age one show later.
fn aged(age: u8) -> u8
    ensures { result ≡ older age }
{
    if age == 0 || age == 255 { age } else { age + 1 }
}

impl Ages {
    ghost use Rattle.chain.specs.Told.{age_of, unaged};

    // The ages of a new chain.
    pub(crate) fn new() -> Ages
        ensures { result ≡ unaged }
    {
        Ages { by_buffer: [0; 4] }
    }

    // The age of one buffer, 0 where there is none. (By `as` here and below: Rust has no `From<u32>` for `usize`.)
    pub(crate) fn get(self, buffer: u32) -> u8
        ensures { result ≡ age_of self buffer }
    {
        self.by_buffer.get(buffer as usize).copied().unwrap_or(0)
    }

    // A buffer is shown: its age is 1, and each other is one show older.
    pub(crate) fn show(&mut self, shown: u32)
        requires { shown < 4 }
        ensures { (b : ℕ) → age_of self.new b ≡ (if nat_eq b shown then 1 else older (age_of self.old b)) }
    {
        for age in self.by_buffer.iter_mut() {
            *age = aged(*age);
        }
        self.by_buffer[shown as usize] = 1;
    }

    // A buffer is forgotten: its age is 0.
    pub(crate) fn forget(&mut self, forgotten: u32)
        requires { forgotten < 4 }
        ensures { (b : ℕ) → age_of self.new b ≡ (if nat_eq b forgotten then 0 else age_of self.old b) }
    {
        self.by_buffer[forgotten as usize] = 0;
    }
}
