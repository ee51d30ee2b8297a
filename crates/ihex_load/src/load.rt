//! From the bytes of an Intel HEX file to its image.
ghost use Rattle.std.specs.Prelude.{◌≡◌, ◌++◌, OnOk, IfErr};
ghost use Rattle.ihex_load.specs.declared.fault.HexFault.TheVariants as fault;
ghost use Rattle.ihex_load.specs.Image as images;
ghost use Rattle.ihex_load.specs.Image.{placed, image_of, IsReadAs};
ghost use Rattle.ihex_load.specs.Inner.Course.{parts_told};
ghost use Rattle.ihex_load.specs.Inner.Gives.{Gives};

use crate::fault::HexFault;
use crate::lines::first_line;
use crate::record::{Record, read_line};
use elf_load::{Bytes, Image, Part};
use lab_num::Rows;
use std::alloc::Global;

/// A copy of bytes, from an address on.
fn part(alloc: Global, at: u32, bytes: &[u8]) -> Result<Part, HexFault>
    ensures { Gives (λ part. part) (Ok (images.part at bytes.now)) result }
{
    let bytes = Vec::from_slice(alloc, bytes)?;
    Ok(Part {
        at,
        bytes: Bytes::of(alloc, bytes)?,
        zeros: 0,
    })
}

/// Puts bytes from an address on after the other parts. Those that pass the end of the address
/// space stand from address 0 on.
fn place(alloc: Global, parts: &mut Vec<Part>, at: u32, bytes: &[u8]) -> Result<(), HexFault>
    ensures ok { OnOk result (parts.new.items ≡ parts.old.items ++ placed at bytes.now) }
    ensures err { IfErr result (λ e. e ≡ fault.Memory) }
{
    let room = (1_u64 << 32) - u64::from(at);
    if bytes.len() as u64 <= room {
        parts.push(part(alloc, at, bytes)?)?;
        return Ok(());
    }
    let (front, back) = bytes.split_at(room as usize);
    parts.push(part(alloc, at, front)?)?;
    parts.push(part(alloc, 0, back)?)?;
    Ok(())
}

/// The parts of a file's data records, in their order.
fn parts_of(alloc: Global, file: &[u8]) -> Result<Vec<Part>, HexFault>
    ensures { Gives (λ parts. parts.items) (parts_told file.now) result }
{
    let mut parts = Vec::new(alloc);
    let mut base = 0_u32;
    let mut rest = file;
    while !rest.is_empty() {
        let (line, more) = first_line(rest);
        match read_line(alloc, line)? {
            Record::Nothing => {}
            Record::Data { offset, bytes } => {
                let at = base.wrapping_add(u32::from(offset));
                place(alloc, &mut parts, at, bytes.items())?;
            }
            Record::EndOfFile => return Ok(parts),
            Record::Base(address) => base = address,
        }
        rest = more;
    }
    Err(HexFault::NoEnd)
}

/// The image of an Intel HEX file: one part for each data record, in the order of the lines, and no
/// entry. A record whose bytes pass the end of the address space gives a second part, at address 0.
///
/// Lines end at LF or CR LF. Blank lines, all lines after the record of type 01, and the start
/// addresses of types 03 and 05 have no meaning. Types 02 and 04 set the base of later data to
/// their value times 16 and times 65,536.
///
/// Each fault other than `Memory` is that of the first line that has one; `NoEnd` is told where no
/// line has one and none is of type 01.
#[tactic(auto, unfolding(crate::specs::Image::image_of))]
pub fn read_hex(alloc: Global, file: &[u8]) -> Result<Image, HexFault>
    ensures read { IsReadAs (image_of file.now) result }
{
    let parts = parts_of(alloc, file)?;
    Ok(Image {
        entry: None,
        parts: Rows::of(parts),
    })
}
