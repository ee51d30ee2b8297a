//! The parts of the plan of a board.
use crate::byte_reader::ByteReader;
use crate::fault::SnapFault;
use crate::spelled::Spelled;
use dev_core::Kind;
use lab_num::NoMemory;
use std::alloc::Global;
use sys_bus::{Named, NamedWhat, PlicSize, Region, RegionKind, Wire, WireFrom, WirePin};

impl Spelled for Kind {
    ghost use Rattle.lab_encoding.specs.PlanParts.{kind_form, kind_lawful};

    ghost form = { kind_form };

    ghost lawful = { kind_lawful };

    #[tactic(auto, unfolding(crate::specs::PlanParts::kind_form))]
    fn encode(&self, out: &mut Vec<u8>) -> Result<(), NoMemory> {
        out.push(self.number())?;
        Ok(())
    }

    #[tactic(auto, unfolding(crate::specs::PlanParts::kind_form))]
    fn decode(_alloc: Global, reader: &mut ByteReader<'_>) -> Result<Kind, SnapFault> {
        match Kind::numbered(reader.byte()?) {
            Some(kind) => Ok(kind),
            None => Err(SnapFault::Bad),
        }
    }
}

impl Spelled for RegionKind {
    ghost use Rattle.lab_encoding.specs.PlanParts.{region_kind_form, region_kind_lawful};

    ghost form = { region_kind_form };

    ghost lawful = { region_kind_lawful };

    #[tactic(auto, unfolding(crate::specs::PlanParts::region_kind_form))]
    fn encode(&self, out: &mut Vec<u8>) -> Result<(), NoMemory> {
        match self {
            RegionKind::Ram(part) => {
                out.push(0)?;
                part.encode(out)?;
            }
            RegionKind::Clint => out.push(1)?,
            RegionKind::Plic => out.push(2)?,
            RegionKind::Dev(dev) => {
                out.push(3)?;
                dev.encode(out)?;
            }
        }
        Ok(())
    }

    #[tactic(auto, unfolding(crate::specs::PlanParts::region_kind_form))]
    fn decode(alloc: Global, reader: &mut ByteReader<'_>) -> Result<RegionKind, SnapFault> {
        match reader.byte()? {
            0 => Ok(RegionKind::Ram(Spelled::decode(alloc, reader)?)),
            1 => Ok(RegionKind::Clint),
            2 => Ok(RegionKind::Plic),
            3 => Ok(RegionKind::Dev(Spelled::decode(alloc, reader)?)),
            _ => Err(SnapFault::Bad),
        }
    }
}

impl Spelled for Region {
    ghost use Rattle.lab_encoding.specs.PlanParts.{region_form, region_lawful};

    ghost form = { region_form };

    ghost lawful = { region_lawful };

    #[tactic(auto, unfolding(crate::specs::PlanParts::region_form))]
    fn encode(&self, out: &mut Vec<u8>) -> Result<(), NoMemory> {
        self.base.encode(out)?;
        self.size.encode(out)?;
        self.kind.encode(out)?;
        self.step.encode(out)?;
        Ok(())
    }

    #[tactic(auto, unfolding(crate::specs::PlanParts::region_form))]
    fn decode(alloc: Global, reader: &mut ByteReader<'_>) -> Result<Region, SnapFault> {
        Ok(Region {
            base: Spelled::decode(alloc, reader)?,
            size: Spelled::decode(alloc, reader)?,
            kind: Spelled::decode(alloc, reader)?,
            step: Spelled::decode(alloc, reader)?,
        })
    }
}

impl Spelled for NamedWhat {
    ghost use Rattle.lab_encoding.specs.PlanParts.{named_what_form, named_what_lawful};

    ghost form = { named_what_form };

    ghost lawful = { named_what_lawful };

    #[tactic(auto, unfolding(crate::specs::PlanParts::named_what_form))]
    fn encode(&self, out: &mut Vec<u8>) -> Result<(), NoMemory> {
        match self {
            NamedWhat::Cpu => out.push(0)?,
            NamedWhat::Part(kind) => {
                out.push(1)?;
                kind.encode(out)?;
            }
        }
        Ok(())
    }

    #[tactic(auto, unfolding(crate::specs::PlanParts::named_what_form))]
    fn decode(alloc: Global, reader: &mut ByteReader<'_>) -> Result<NamedWhat, SnapFault> {
        match reader.byte()? {
            0 => Ok(NamedWhat::Cpu),
            1 => Ok(NamedWhat::Part(Spelled::decode(alloc, reader)?)),
            _ => Err(SnapFault::Bad),
        }
    }
}

impl Spelled for Named {
    ghost use Rattle.lab_encoding.specs.PlanParts.{named_form, named_lawful};

    ghost form = { named_form };

    ghost lawful = { named_lawful };

    #[tactic(auto, unfolding(crate::specs::PlanParts::named_form))]
    fn encode(&self, out: &mut Vec<u8>) -> Result<(), NoMemory> {
        self.name.encode(out)?;
        self.what.encode(out)?;
        Ok(())
    }

    #[tactic(auto, unfolding(crate::specs::PlanParts::named_form))]
    fn decode(alloc: Global, reader: &mut ByteReader<'_>) -> Result<Named, SnapFault> {
        Ok(Named {
            name: Spelled::decode(alloc, reader)?,
            what: Spelled::decode(alloc, reader)?,
        })
    }
}

impl Spelled for PlicSize {
    ghost use Rattle.lab_encoding.specs.PlanParts.{plic_size_form, plic_size_lawful};

    ghost form = { plic_size_form };

    ghost lawful = { plic_size_lawful };

    #[tactic(auto, unfolding(crate::specs::PlanParts::plic_size_form))]
    fn encode(&self, out: &mut Vec<u8>) -> Result<(), NoMemory> {
        self.sources.encode(out)?;
        self.contexts.encode(out)?;
        Ok(())
    }

    #[tactic(auto, unfolding(crate::specs::PlanParts::plic_size_form))]
    fn decode(alloc: Global, reader: &mut ByteReader<'_>) -> Result<PlicSize, SnapFault> {
        Ok(PlicSize {
            sources: Spelled::decode(alloc, reader)?,
            contexts: Spelled::decode(alloc, reader)?,
        })
    }
}

impl Spelled for WireFrom {
    ghost use Rattle.lab_encoding.specs.PlanParts.{wire_from_form, wire_from_lawful};

    ghost form = { wire_from_form };

    ghost lawful = { wire_from_lawful };

    #[tactic(auto, unfolding(crate::specs::PlanParts::wire_from_form))]
    fn encode(&self, out: &mut Vec<u8>) -> Result<(), NoMemory> {
        match self {
            WireFrom::Soft => out.push(0)?,
            WireFrom::Timer => out.push(1)?,
            WireFrom::Context(context) => {
                out.push(2)?;
                context.encode(out)?;
            }
            WireFrom::Dev(dev) => {
                out.push(3)?;
                dev.encode(out)?;
            }
        }
        Ok(())
    }

    #[tactic(auto, unfolding(crate::specs::PlanParts::wire_from_form))]
    fn decode(alloc: Global, reader: &mut ByteReader<'_>) -> Result<WireFrom, SnapFault> {
        match reader.byte()? {
            0 => Ok(WireFrom::Soft),
            1 => Ok(WireFrom::Timer),
            2 => Ok(WireFrom::Context(Spelled::decode(alloc, reader)?)),
            3 => Ok(WireFrom::Dev(Spelled::decode(alloc, reader)?)),
            _ => Err(SnapFault::Bad),
        }
    }
}

impl Spelled for WirePin {
    ghost use Rattle.lab_encoding.specs.PlanParts.{wire_pin_form, wire_pin_lawful};

    ghost form = { wire_pin_form };

    ghost lawful = { wire_pin_lawful };

    #[tactic(auto, unfolding(crate::specs::PlanParts::wire_pin_form))]
    fn encode(&self, out: &mut Vec<u8>) -> Result<(), NoMemory> {
        match self {
            WirePin::Cpu { hart, pin } => {
                out.push(0)?;
                hart.encode(out)?;
                pin.encode(out)?;
            }
            WirePin::Source(source) => {
                out.push(1)?;
                source.encode(out)?;
            }
        }
        Ok(())
    }

    #[tactic(auto, unfolding(crate::specs::PlanParts::wire_pin_form))]
    fn decode(alloc: Global, reader: &mut ByteReader<'_>) -> Result<WirePin, SnapFault> {
        match reader.byte()? {
            0 => Ok(WirePin::Cpu {
                hart: Spelled::decode(alloc, reader)?,
                pin: Spelled::decode(alloc, reader)?,
            }),
            1 => Ok(WirePin::Source(Spelled::decode(alloc, reader)?)),
            _ => Err(SnapFault::Bad),
        }
    }
}

impl Spelled for Wire {
    ghost use Rattle.lab_encoding.specs.PlanParts.{wire_form, wire_lawful};

    ghost form = { wire_form };

    ghost lawful = { wire_lawful };

    #[tactic(auto, unfolding(crate::specs::PlanParts::wire_form))]
    fn encode(&self, out: &mut Vec<u8>) -> Result<(), NoMemory> {
        self.from.encode(out)?;
        self.pin.encode(out)?;
        Ok(())
    }

    #[tactic(auto, unfolding(crate::specs::PlanParts::wire_form))]
    fn decode(alloc: Global, reader: &mut ByteReader<'_>) -> Result<Wire, SnapFault> {
        Ok(Wire {
            from: Spelled::decode(alloc, reader)?,
            pin: Spelled::decode(alloc, reader)?,
        })
    }
}
