//! Commands that load images.
ghost use Rattle.std.specs.Prelude.{◌≡◌, ◌<◌, ◌%◌, length, true, false, IfErr, IsSome, IsTrue, OnOk, Some};
ghost use Rattle.std.specs.List.{list_all};
ghost use Rattle.std.specs.Option.{ForSome};
ghost use Rattle.rv_hart.specs.Core.{alignment};
ghost use Rattle.board.specs.Changes.{with_pc};
ghost use Rattle.lab_state.specs.One.{view_of};
ghost use Rattle.monitor.specs.Images as images;
ghost use Rattle.monitor.specs.Inner.Ruling.{IsChanged, IsImage, IsRuled, image_by};

use crate::fault::Cause;
use crate::monitor::Monitor;
use crate::stop::Stop;
use dev_core::Device;
use elf_load::{ElfFault, Image, Part, read_elf};
use ihex_load::{HexFault, read_hex};
use lab_num::BoardNo;
use resc_vars::ScriptCause;
use std::alloc::Global;

/// The formats of image files.
#[derive(Clone, Copy)]
pub(crate) enum Format {
    Elf,
    Hex,
}

/// The image of an ELF file.
fn elf_image(alloc: Global, file: &[u8]) -> Result<Image, Stop>
    ensures { IsImage (images.elf_image file.now) result }
{
    match read_elf(alloc, file) {
        Ok(image) => Ok(image),
        Err(ElfFault::Memory) => Err(Stop::Memory),
        Err(fault) => Err(Stop::Content(Cause::Elf(fault))),
    }
}

/// The image of an Intel HEX file.
fn hex_image(alloc: Global, file: &[u8]) -> Result<Image, Stop>
    ensures { IsImage (images.hex_image file.now) result }
{
    match read_hex(alloc, file) {
        Ok(image) => Ok(image),
        Err(HexFault::Memory) => Err(Stop::Memory),
        Err(fault) => Err(Stop::Content(Cause::Hex(fault))),
    }
}

/// The image of a file of a format.
pub(crate) fn read_image(alloc: Global, format: Format, file: &[u8]) -> Result<Image, Stop>
    ensures { IsImage (image_by format file.now) result }
{
    match format {
        Format::Elf => elf_image(alloc, file),
        Format::Hex => hex_image(alloc, file),
    }
}

impl<D: Device> Monitor<D> {
    /// Whether each byte and each zero of a part has its place in a memory.
    fn holds_part(&self, b: BoardNo, part: &Part) -> bool
        requires unspent { self.now.spent ≡ false }
        requires has_plan { IsSome (view_of self.now.state.lab b.0) }
        ensures { ForSome (view_of self.now.state.lab b.0) (λ v.
            result ≡ images.holds_part v part.now) }
    {
        let size = part.bytes.items().len() as u64 + u64::from(part.zeros);
        if size > u64::from(u32::MAX) || u64::from(part.at) + size > 1 << 32 {
            return false;
        }
        self.lab.board(b).holds(part.at, size as u32)
    }

    /// Whether each byte and each zero of some parts has its place in a memory.
    fn holds_parts(&self, b: BoardNo, parts: &[Part]) -> bool
        requires unspent { self.now.spent ≡ false }
        requires has_plan { IsSome (view_of self.now.state.lab b.0) }
        ensures { ForSome (view_of self.now.state.lab b.0) (λ v.
            result ≡ list_all (images.holds_part v) parts.now) }
    {
        for part in parts {
            if !self.holds_part(b, part) {
                return false;
            }
        }
        true
    }

    /// Loads the bytes and the zeros of a part. After an `Err` some of the bytes are loaded.
    fn load_part(&mut self, b: BoardNo, part: &Part) -> Result<(), Stop>
        requires unspent { self.old.spent ≡ false }
        requires waits { self.old.ended ≡ true }
        requires has_plan { IsSome (view_of self.old.state.lab b.0) }
        requires holds { ForSome (view_of self.old.state.lab b.0) (λ v.
            IsTrue (images.holds_part v part.now)) }
        ensures ok { OnOk result
            (IsChanged b.0 (λ v. images.with_part v part.now) self.old self.new) }
        ensures err { IfErr result (λ stop. stop ≡ Stop.Memory) }
        ensures ended { self.new.ended ≡ self.old.ended }
    {
        let bytes = part.bytes.items();
        self.lab.copy_in(b, part.at, bytes)?;
        if part.zeros > 0 {
            self.lab.zero(b, part.at + bytes.len() as u32, part.zeros);
        }
        Ok(())
    }

    /// Loads parts one after another, and ends all reservations. After an `Err` some of their bytes are
    /// loaded.
    fn load_parts(&mut self, b: BoardNo, parts: &[Part]) -> Result<(), Stop>
        requires unspent { self.old.spent ≡ false }
        requires waits { self.old.ended ≡ true }
        requires has_plan { IsSome (view_of self.old.state.lab b.0) }
        requires holds { ForSome (view_of self.old.state.lab b.0) (λ v.
            IsTrue (list_all (images.holds_part v) parts.now)) }
        ensures ok { OnOk result
            (IsChanged b.0 (λ v. images.with_parts v parts.now) self.old self.new) }
        ensures err { IfErr result (λ stop. stop ≡ Stop.Memory) }
        ensures ended { self.new.ended ≡ self.old.ended }
    {
        // where there is no part too
        self.lab.zero(b, 0, 0);
        for part in parts {
            self.load_part(b, part)?;
        }
        Ok(())
    }

    /// Whether execution may begin at an image's entry.
    fn is_entry(&self, b: BoardNo, entry: Option<u32>) -> bool
        requires unspent { self.now.spent ≡ false }
        requires has_plan { IsSome (view_of self.now.state.lab b.0) }
        ensures { ForSome (view_of self.now.state.lab b.0) (λ v.
            result ≡ images.is_entry v entry) }
    {
        match entry {
            None => true,
            Some(pc) => self.lab.board(b).aligns(pc),
        }
    }

    /// Has a processor of a board go on at an address.
    fn set_one_pc(&mut self, b: BoardNo, hart: u8, pc: u32)
        requires unspent { self.old.spent ≡ false }
        requires waits { self.old.ended ≡ true }
        requires has_plan { IsSome (view_of self.old.state.lab b.0) }
        requires hart { ForSome (view_of self.old.state.lab b.0) (λ v. hart < length v.cores) }
        requires aligned { ForSome (view_of self.old.state.lab b.0) (λ v.
            pc % alignment v.space.plan.letters ≡ 0) }
        ensures { IsChanged b.0 (λ v. with_pc v hart pc) self.old self.new }
    {
        self.lab.set_pc(b, hart, pc);
    }

    /// Has each processor of a board go on at an address.
    fn set_each_pc(&mut self, b: BoardNo, pc: u32)
        requires unspent { self.old.spent ≡ false }
        requires waits { self.old.ended ≡ true }
        requires has_plan { IsSome (view_of self.old.state.lab b.0) }
        requires is_entry { ForSome (view_of self.old.state.lab b.0) (λ v.
            IsTrue (images.is_entry v (Some pc))) }
        ensures { IsChanged b.0 (λ v. images.with_each_pc v pc) self.old self.new }
    {
        let harts = self.harts(b);
        for hart in 0..harts {
            self.set_one_pc(b, hart, pc);
        }
    }

    /// Has each processor go on at the entry of an image, if it has one.
    fn set_entry(&mut self, b: BoardNo, entry: Option<u32>)
        requires unspent { self.old.spent ≡ false }
        requires waits { self.old.ended ≡ true }
        requires has_plan { IsSome (view_of self.old.state.lab b.0) }
        requires is_entry { ForSome (view_of self.old.state.lab b.0) (λ v.
            IsTrue (images.is_entry v entry)) }
        ensures { IsChanged b.0 (λ v. images.with_entry v entry) self.old self.new }
    {
        if let Some(pc) = entry {
            self.set_each_pc(b, pc);
        }
    }

    /// Loads an image, and has each processor go on at its entry if it has one.
    pub(crate) fn load_image(&mut self, b: BoardNo, image: &Image) -> Result<Vec<u8>, Stop>
        requires unspent { self.old.spent ≡ false }
        requires waits { self.old.ended ≡ true }
        requires has_plan { IsSome (view_of self.old.state.lab b.0) }
        ensures { ForSome (view_of self.old.state.lab b.0) (λ v. IsRuled
            (images.load_image self.old.state (record { number = b.0; view = v }) image.now)
            result self.old self.new) }
    {
        let parts = image.parts.items();
        if !self.holds_parts(b, parts) || !self.is_entry(b, image.entry) {
            return Err(Stop::Line(ScriptCause::Address));
        }
        self.load_parts(b, parts)?;
        self.set_entry(b, image.entry);
        Ok(Vec::new(self.alloc))
    }
}
