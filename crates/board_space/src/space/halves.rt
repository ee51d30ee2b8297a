//! What lies in the memories of a board by half-words.
ghost use Rattle.std.specs.Prelude.{◌≡◌, ◌+◌, ◌<◌, ◌≤◌, ◌%◌, length};
ghost use Rattle.page_ram.specs.Bytes.{value_at};
ghost use Rattle.board_space.specs.Space.{memory_at};
ghost use Rattle.board_space.specs.Words.{half_in, word_begun};

use super::Space;
use dev_core::Device;
use sys_bus::Target;

impl<D: Device> Space<D> {
    /// The word whose lower half is this half-word, which lies at an address, where a memory holds
    /// the other.
    #[inline(always)]
    pub fn word_begun(&mut self, half: u16, at: u32) -> Option<u32>
        requires { at % 2 ≡ 0 }
        ensures value { result ≡ word_begun self.old at half }
        ensures same { self.new ≡ self.old }
    {
        let upper = self.half(at.wrapping_add(2))?;
        Some(u32::from(half) + u32::from(upper) * 0x1_0000)
    }

    /// The half-word at an address, where a memory holds both bytes.
    #[inline(always)]
    pub fn half(&mut self, at: u32) -> Option<u16>
        requires { at % 2 ≡ 0 }
        ensures value { result ≡ half_in self.old at }
        ensures same { self.new ≡ self.old }
    {
        match self.near_code(at) {
            Some(place) => Some(self.load_memory(place.part, place.at, 2) as u16),
            None => Some(self.half_anew(at)?),
        }
    }

    /// The same, by a search of all regions.
    #[cold]
    #[inline(never)]
    fn half_anew(&mut self, at: u32) -> Option<u16>
        requires { at % 2 ≡ 0 }
        ensures value { result ≡ half_in self.old at }
        ensures same { self.new ≡ self.old }
    {
        // the memory of the word there is near from now on
        let _ = self.find_code(at);
        match self.find(at, 2) {
            Target::Ram { part, at } => Some(self.half_of_memory(part, at)),
            _ => None,
        }
    }

    fn half_of_memory(&self, part: u8, at: u32) -> u16
        requires part { part < length self.now.memories }
        requires lies { at + 2 ≤ length (memory_at self.now part) }
        ensures { result ≡ value_at (memory_at self.now part) at 2 }
    {
        self.memories[usize::from(part)].load(at, 2) as u16
    }
}
