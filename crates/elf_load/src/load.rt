//! From the bytes of an ELF file to its image.
ghost use Rattle.std.specs.Prelude.{◌≡◌, ◌≤◌, ◌+◌, ◌*◌, length, true, false, Some, None, Ok, OnOk, IfErr, IfOk};
ghost use Rattle.std.specs.Prelude.{if◌then◌else◌};
ghost use Rattle.elf_load.specs.declared.image.ElfFault.TheVariants as fault;
ghost use Rattle.elf_load.specs.Header.{header_size, e_phoff};
ghost use Rattle.elf_load.specs.Image as images;
ghost use Rattle.elf_load.specs.Image.{image_of, first_of, tests, has_wrong_segment, IsReadAs};
ghost use Rattle.elf_load.specs.Inner.Parts.{Gives, part_told, parts_told};
ghost use Rattle.elf_load.specs.Segment as segments;
ghost use Rattle.elf_load.specs.Segment.{program_header, program_header_size};

use crate::bytes::Bytes;
use crate::fields::{half, word};
use crate::image::{ElfFault, Image, Part};
use lab_num::Rows;
use std::alloc::Global;

// The header of a file: its size, and the places of its fields.
const HEADER_SIZE: usize = 52;

const CLASS: usize = 4;

const ORDER: usize = 5;

const FILE_TYPE: usize = 16;

const MACHINE: usize = 18;

const ENTRY: usize = 24;

const HEADERS_OFFSET: usize = 28;

const HEADER_LENGTH: usize = 42;

const HEADERS_COUNT: usize = 44;

// A program header: its size, and the places of its fields.
const PROGRAM_HEADER_SIZE: u16 = 32;

const SEGMENT_TYPE: usize = 0;

const OFFSET: usize = 4;

const PHYSICAL_ADDRESS: usize = 12;

const FILE_SIZE: usize = 16;

const MEMORY_SIZE: usize = 20;

// What the fields of an accepted file hold.
const CLASS_32: u8 = 1;

const LITTLE_ENDIAN: u8 = 1;

const EXECUTABLE: u16 = 2;

const RISC_V: u16 = 243;

/// The type of the segments that are loaded.
const LOADED: u32 = 1;

/// Whether the program headers are of another size or pass the end of the file.
fn has_wrong_headers(file: &[u8]) -> bool
    requires { header_size ≤ length file.now }
    ensures { result ≡ images.has_wrong_headers file.now }
{
    let count = half(file, HEADERS_COUNT);
    if count == 0 {
        return false;
    }
    let end = u64::from(word(file, HEADERS_OFFSET))
        + u64::from(count) * u64::from(PROGRAM_HEADER_SIZE);
    half(file, HEADER_LENGTH) != PROGRAM_HEADER_SIZE || end > file.len() as u64
}

/// The first fault of a file that can be seen without its segments.
fn check_header(file: &[u8]) -> Result<(), ElfFault>
    ensures ok { OnOk result (first_of (tests file.now)
        ≡ (if has_wrong_segment file.now then Some fault.Segment else None)) }
    ensures long { OnOk result (header_size ≤ length file.now) }
    ensures headers { OnOk result (images.has_wrong_headers file.now ≡ false) }
    ensures err { IfErr result (λ fault. first_of (tests file.now) ≡ Some fault) }
{
    if file.len() < HEADER_SIZE {
        Err(ElfFault::Short)
    } else if !file.starts_with(b"\x7fELF") {
        Err(ElfFault::NotElf)
    } else if file[CLASS] != CLASS_32 {
        Err(ElfFault::Class)
    } else if file[ORDER] != LITTLE_ENDIAN {
        Err(ElfFault::Order)
    } else if half(file, MACHINE) != RISC_V {
        Err(ElfFault::Machine)
    } else if half(file, FILE_TYPE) != EXECUTABLE {
        Err(ElfFault::FileType)
    } else if has_wrong_headers(file) {
        Err(ElfFault::Headers)
    } else {
        Ok(())
    }
}

/// Whether a segment's bytes stand in the file, are no more than it has in memory, and end in the
/// address space.
fn is_sound(file: &[u8], header: &[u8]) -> bool
    requires { program_header_size ≤ length header.now }
    ensures { result ≡ segments.is_sound file.now header.now }
{
    let file_size = word(header, FILE_SIZE);
    let memory_size = word(header, MEMORY_SIZE);
    let file_end = u64::from(word(header, OFFSET)) + u64::from(file_size);
    let memory_end = u64::from(word(header, PHYSICAL_ADDRESS)) + u64::from(memory_size);
    file_end <= file.len() as u64 && file_size <= memory_size && memory_end <= 1 << 32
}

/// The bytes of a segment, with zeros for what it has in memory alone.
fn segment(file: &Bytes, header: &[u8]) -> Result<Part, ElfFault>
    requires header { program_header_size ≤ length header.now }
    requires sound { segments.is_sound file.now header.now ≡ true }
    ensures { Gives (λ part. part) (Ok (segments.part_of file.now header.now)) result }
{
    let offset = word(header, OFFSET) as usize;
    let file_size = word(header, FILE_SIZE);
    let bytes = file.piece(offset, file_size as usize)?;
    Ok(Part {
        at: word(header, PHYSICAL_ADDRESS),
        bytes,
        zeros: word(header, MEMORY_SIZE) - file_size,
    })
}

/// The part of a program header, if its segment is loaded.
fn part_of(file: &Bytes, header: &[u8]) -> Result<Option<Part>, ElfFault>
    requires { program_header_size ≤ length header.now }
    ensures { Gives (λ part. part) (part_told file.now header.now) result }
{
    if word(header, SEGMENT_TYPE) != LOADED {
        return Ok(None);
    }
    if !is_sound(file.items(), header) {
        return Err(ElfFault::Segment);
    }
    let part = segment(file, header)?;
    Ok(Some(part))
}

/// The program header with this number, from 0 on.
fn program_header(file: &[u8], n: u16) -> &[u8]
    requires long { header_size ≤ length file.now }
    requires inside { e_phoff file.now + (n + 1) * program_header_size ≤ length file.now }
    ensures bytes { result.now ≡ program_header file.now n }
    ensures size { length result.now ≡ program_header_size }
{
    let start = word(file, HEADERS_OFFSET) as usize
        + usize::from(n) * usize::from(PROGRAM_HEADER_SIZE);
    &file[start..start + usize::from(PROGRAM_HEADER_SIZE)]
}

/// The parts of the segments that are loaded.
fn parts_of(alloc: Global, file: &Bytes) -> Result<Vec<Part>, ElfFault>
    requires long { header_size ≤ length file.now }
    requires headers { images.has_wrong_headers file.now ≡ false }
    ensures { Gives (λ parts. parts.items) (parts_told file.now) result }
{
    let mut parts = Vec::new(alloc);
    let count = half(file.items(), HEADERS_COUNT);
    for n in 0..count {
        let header = program_header(file.items(), n);
        if let Some(part) = part_of(file, header)? {
            parts.push(part)?;
        }
    }
    Ok(parts)
}

/// A copy of a file, which parts can share.
fn copy_of(alloc: Global, file: &[u8]) -> Result<Bytes, ElfFault>
    ensures ok { IfOk result (λ shared. shared ≡ file.now) }
    ensures err { IfErr result (λ e. e ≡ fault.Memory) }
{
    let bytes = Vec::from_slice(alloc, file)?;
    Ok(Bytes::of(alloc, bytes)?)
}

/// The image of an ELF executable for RISC-V: one part for each program header of the type
/// `PT_LOAD`, in the order of the headers, and the entry. A part has the segment's bytes of the
/// file at its physical address, and zeros for the rest of its size in memory. Other program
/// headers, sections and other fields have no meaning.
///
/// Each fault other than `Memory` is the first that the file has, in the order of `ElfFault`.
#[tactic(auto, unfolding(crate::specs::Image::image_of))]
pub fn read_elf(alloc: Global, file: &[u8]) -> Result<Image, ElfFault>
    ensures read { IsReadAs (image_of file.now) result }
{
    check_header(file)?;
    let shared = copy_of(alloc, file)?;
    let parts = parts_of(alloc, &shared)?;
    Ok(Image {
        entry: Some(word(file, ENTRY)),
        parts: Rows::of(parts),
    })
}
