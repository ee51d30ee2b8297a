//! Devices enough for each board that a laboratory can have.
ghost use Rattle.std.specs.Prelude.{◌≡◌, IfOk, map, replicate};
ghost use Rattle.dev_core.specs.Can.{can_reset};
ghost use Rattle.dev_core.specs.Stock.{IsFull};
ghost use Rattle.dev_core.specs.Uart.{uart_reset};
ghost use Rattle.dev_core.specs.declared.state.DevState.TheVariants as state;
ghost use Rattle.chips.specs.Chip.{state_of};

use crate::chip::Chip;
use can_sja1000::Can;
use dev_core::{STOCK_CANS, STOCK_FINISHERS, STOCK_UARTS, Stock};
use lab_num::NoMemory;
use std::alloc::Global;
use test_finisher::Finisher;
use uart_16550::Uart;

/// 64 UARTs, 64 CAN controllers and 16 finishers, each in its reset state.
pub fn full_stock(alloc: Global) -> Result<Stock<Chip>, NoMemory>
    ensures { IfOk result (λ stock. IsFull state_of stock) }
{
    let uarts = uarts(alloc)?;
    let cans = cans(alloc)?;
    let finishers = finishers(alloc)?;
    Ok(Stock {
        uarts,
        cans,
        finishers,
    })
}

fn uarts(alloc: Global) -> Result<Vec<Chip>, NoMemory>
    ensures { IfOk result (λ uarts. map state_of uarts.items ≡ replicate 64 (state.Uart uart_reset)) }
{
    let mut uarts = Vec::new(alloc);
    for _made in 0..STOCK_UARTS {
        uarts.push(Chip::Uart(Box::new(alloc, Uart::new())?))?;
    }
    Ok(uarts)
}

fn cans(alloc: Global) -> Result<Vec<Chip>, NoMemory>
    ensures { IfOk result (λ cans. map state_of cans.items ≡ replicate 64 (state.Can can_reset)) }
{
    let mut cans = Vec::new(alloc);
    for _made in 0..STOCK_CANS {
        cans.push(Chip::Can(Box::new(alloc, Can::new())?))?;
    }
    Ok(cans)
}

fn finishers(alloc: Global) -> Result<Vec<Chip>, NoMemory>
    ensures { IfOk result (λ finishers. map state_of finishers.items ≡ replicate 16 state.Finisher) }
{
    let mut finishers = Vec::new(alloc);
    for _made in 0..STOCK_FINISHERS {
        finishers.push(Chip::Finisher(Box::new(alloc, Finisher::new())?))?;
    }
    Ok(finishers)
}
