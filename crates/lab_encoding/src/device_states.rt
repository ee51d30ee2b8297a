//! The states of devices.
use crate::byte_reader::ByteReader;
use crate::fault::SnapFault;
use crate::spelled::Spelled;
use dev_core::{CanState, DevState, UartState};
use lab_num::NoMemory;
use std::alloc::Global;

impl Spelled for UartState {
    ghost use Rattle.lab_encoding.specs.DeviceStates.{uart_form, uart_lawful};

    ghost form = { uart_form };

    ghost lawful = { uart_lawful };

    #[tactic(auto, unfolding(crate::specs::DeviceStates::uart_form))]
    fn encode(&self, out: &mut Vec<u8>) -> Result<(), NoMemory> {
        self.ier.encode(out)?;
        self.lcr.encode(out)?;
        self.mcr.encode(out)?;
        self.scr.encode(out)?;
        self.dll.encode(out)?;
        self.dlm.encode(out)?;
        self.fifos.encode(out)?;
        self.trigger.encode(out)?;
        self.received.encode(out)?;
        self.oe.encode(out)?;
        self.thr.encode(out)?;
        Ok(())
    }

    #[tactic(auto, unfolding(crate::specs::DeviceStates::uart_form))]
    fn decode(alloc: Global, reader: &mut ByteReader<'_>) -> Result<UartState, SnapFault> {
        Ok(UartState {
            ier: Spelled::decode(alloc, reader)?,
            lcr: Spelled::decode(alloc, reader)?,
            mcr: Spelled::decode(alloc, reader)?,
            scr: Spelled::decode(alloc, reader)?,
            dll: Spelled::decode(alloc, reader)?,
            dlm: Spelled::decode(alloc, reader)?,
            fifos: Spelled::decode(alloc, reader)?,
            trigger: Spelled::decode(alloc, reader)?,
            received: Spelled::decode(alloc, reader)?,
            oe: Spelled::decode(alloc, reader)?,
            thr: Spelled::decode(alloc, reader)?,
        })
    }
}

impl Spelled for CanState {
    ghost use Rattle.lab_encoding.specs.DeviceStates.{can_form, can_lawful};

    ghost form = { can_form };

    ghost lawful = { can_lawful };

    #[tactic(auto, unfolding(crate::specs::DeviceStates::can_form))]
    fn encode(&self, out: &mut Vec<u8>) -> Result<(), NoMemory> {
        self.control.encode(out)?;
        self.code.encode(out)?;
        self.mask.encode(out)?;
        self.timing0.encode(out)?;
        self.timing1.encode(out)?;
        self.output.encode(out)?;
        self.divider.encode(out)?;
        self.transmit.encode(out)?;
        self.received.encode(out)?;
        self.dos.encode(out)?;
        self.ri.encode(out)?;
        self.ti.encode(out)?;
        self.doi.encode(out)?;
        Ok(())
    }

    #[tactic(auto, unfolding(crate::specs::DeviceStates::can_form))]
    fn decode(alloc: Global, reader: &mut ByteReader<'_>) -> Result<CanState, SnapFault> {
        Ok(CanState {
            control: Spelled::decode(alloc, reader)?,
            code: Spelled::decode(alloc, reader)?,
            mask: Spelled::decode(alloc, reader)?,
            timing0: Spelled::decode(alloc, reader)?,
            timing1: Spelled::decode(alloc, reader)?,
            output: Spelled::decode(alloc, reader)?,
            divider: Spelled::decode(alloc, reader)?,
            transmit: Spelled::decode(alloc, reader)?,
            received: Spelled::decode(alloc, reader)?,
            dos: Spelled::decode(alloc, reader)?,
            ri: Spelled::decode(alloc, reader)?,
            ti: Spelled::decode(alloc, reader)?,
            doi: Spelled::decode(alloc, reader)?,
        })
    }
}

impl Spelled for DevState {
    ghost use Rattle.lab_encoding.specs.DeviceStates.{device_form, device_lawful};

    ghost form = { device_form };

    ghost lawful = { device_lawful };

    #[tactic(auto, unfolding(crate::specs::DeviceStates::device_form))]
    fn encode(&self, out: &mut Vec<u8>) -> Result<(), NoMemory> {
        match self {
            DevState::Uart(uart) => {
                out.push(0)?;
                uart.encode(out)?;
            }
            DevState::Can(can) => {
                out.push(1)?;
                can.encode(out)?;
            }
            DevState::Finisher => out.push(2)?,
        }
        Ok(())
    }

    #[tactic(auto, unfolding(crate::specs::DeviceStates::device_form))]
    fn decode(alloc: Global, reader: &mut ByteReader<'_>) -> Result<DevState, SnapFault> {
        match reader.byte()? {
            0 => Ok(DevState::Uart(Spelled::decode(alloc, reader)?)),
            1 => Ok(DevState::Can(Spelled::decode(alloc, reader)?)),
            2 => Ok(DevState::Finisher),
            _ => Err(SnapFault::Bad),
        }
    }
}
