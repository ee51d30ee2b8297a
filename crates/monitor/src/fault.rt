//! Faults of scripts and of the files that they name.
ghost use Rattle.std.specs.Prelude.{◌≡◌};
ghost use Rattle.monitor.specs.Fault.{plat_cause_text, elf_cause_text, hex_cause_text};

use elf_load::ElfFault;
use ihex_load::HexFault;
use lab_num::Text;
use repl_read::PlatCause;
use resc_vars::ScriptCause;
use std::fmt;

/// Why a run is refused at a place in a file.
#[derive(Clone, Copy)]
pub enum Cause {
    /// S1 to S21: by a line of a script, or as a file that is too large or no text.
    Script(ScriptCause),
    /// P1 to P12: by what stands in a platform file.
    Plat(PlatCause),
    /// E1 to E8: by an ELF file.
    Elf(ElfFault),
    /// H1 to H5: by an Intel HEX file.
    Hex(HexFault),
}

/// The code and the text of a fault of a platform.
fn plat_text(cause: PlatCause) -> &'static str
    ensures { result.now ≡ plat_cause_text cause }
{
    match cause {
        PlatCause::Form => "P1 form",
        PlatCause::Feature => "P2 feature",
        PlatCause::TypeName => "P3 type",
        PlatCause::Attribute => "P4 attribute",
        PlatCause::Value => "P5 value",
        PlatCause::Missing => "P6 missing",
        PlatCause::Twice => "P7 twice",
        PlatCause::Reference => "P8 reference",
        PlatCause::Overlap => "P9 overlap",
        PlatCause::Line => "P10 line",
        PlatCause::Count => "P11 count",
        PlatCause::Core => "P12 core",
    }
}

/// The code and the text of a fault of an ELF file. Want of memory is none, and has no text.
fn elf_text(fault: ElfFault) -> &'static str
    ensures { result.now ≡ elf_cause_text fault }
{
    match fault {
        ElfFault::Short => "E1 short",
        ElfFault::NotElf => "E2 not elf",
        ElfFault::Class => "E3 class",
        ElfFault::Order => "E4 order",
        ElfFault::Machine => "E5 machine",
        ElfFault::FileType => "E6 type",
        ElfFault::Headers => "E7 headers",
        ElfFault::Segment => "E8 segment",
        ElfFault::Memory => "",
    }
}

/// The code and the text of a fault of an Intel HEX file. Want of memory is none, and has no text.
fn hex_text(fault: HexFault) -> &'static str
    ensures { result.now ≡ hex_cause_text fault }
{
    match fault {
        HexFault::Form => "H1 form",
        HexFault::Sum => "H2 sum",
        HexFault::NoEnd => "H3 no end",
        HexFault::Kind => "H4 kind",
        HexFault::Length => "H5 length",
        HexFault::Memory => "",
    }
}

impl fmt::Display for Cause {
    ghost use Rattle.std.specs.Prelude.{Some};
    ghost use Rattle.monitor.specs.Fault.{cause_text};

    ghost output = { λ cause. Some (cause_text cause) };

    fn fmt<W: fmt::Write>(&self, f: &mut fmt::Formatter<W>) -> fmt::Result {
        let text = match self {
            Cause::Script(cause) => cause.text(),
            Cause::Plat(cause) => plat_text(*cause),
            Cause::Elf(fault) => elf_text(*fault),
            Cause::Hex(fault) => hex_text(*fault),
        };
        write!(f, "{text}")
    }
}

/// A fault, and where it is: the file's name and the line, counted from 1, or 0 for a whole file.
#[derive(Drop)]
pub struct ScriptFault {
    pub file: Text,
    pub line: u32,
    pub cause: Cause,
}

impl fmt::Display for ScriptFault {
    ghost use Rattle.std.specs.Prelude.{Some};
    ghost use Rattle.monitor.specs.Fault.{fault_text};

    ghost output = { λ fault. Some (fault_text fault) };

    fn fmt<W: fmt::Write>(&self, f: &mut fmt::Formatter<W>) -> fmt::Result {
        let file = self.file.as_str();
        let line = self.line;
        let cause = self.cause;
        write!(f, "error: {file}:{line}: {cause}")
    }
}
