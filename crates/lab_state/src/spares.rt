//! The devices that no board has yet.
ghost use Rattle.std.specs.Prelude.{◌≡◌, ◌<◌, [], ◌∷◌, map, All, OnErr, IfOk, OnOk};
ghost use Rattle.dev_core.specs.Device.{kind_of};
ghost use Rattle.dev_core.specs.Stock.{IsFull};
ghost use Rattle.board.specs.New.{first_state};
ghost use Rattle.lab_state.specs.Inner.Spares.{left_of, full, kinds_of, HasFor, HasRoomFor, AreTaken};

use dev_core::{Device, Kind, Stock};
use lab_num::NoMemory;
use std::alloc::Global;
use std::collections::VecDeque;
use std::marker::Model;

/// The devices that no board has yet, each in its reset state. Contracts see how many there are of
/// each kind. They are taken from the front.
#[derive(Drop)]
pub struct Spares<D: Device> {
    uarts: VecDeque<D>,
    cans: VecDeque<D>,
    finishers: VecDeque<D>,
}

impl<D: Device> Model for Spares<D> {
    ghost use Rattle.std.specs.Prelude.{◌≡◌, ◌≤◌, length};
    ghost use Rattle.std.specs.List.{AllByRecursion};
    ghost use Rattle.std.specs.VecDeque.{deque_capacity};
    ghost use Rattle.dev_core.specs.declared.kind.Kind.TheVariants.{Uart, Can, Finisher};
    ghost use Rattle.board.specs.New.{first_state};
    ghost use Rattle.lab_state.specs.Inner.Spares.{Spares as Seen, full};

    ghost Value = { Seen };

    ghost view = { λ s. record {
      uarts = length s.uarts.items;
      cans = length s.cans.items;
      finishers = length s.finishers.items;
    } };

    ghost invariant = { λ s.
        AllByRecursion (λ d. D.meaning d ≡ first_state Uart) s.uarts.items
        × AllByRecursion (λ d. D.meaning d ≡ first_state Can) s.cans.items
        × AllByRecursion (λ d. D.meaning d ≡ first_state Finisher) s.finishers.items
        × (full.uarts ≤ deque_capacity s.uarts)
        × (full.cans ≤ deque_capacity s.cans)
        × (full.finishers ≤ deque_capacity s.finishers) };
}

impl<D: Device> Spares<D> {
    /// The devices of a full stock.
    pub fn of(stock: Stock<D>) -> Spares<D>
        requires { IsFull D.meaning stock }
        ensures { result ≡ full }
    {
        Spares {
            uarts: VecDeque::from(stock.uarts),
            cans: VecDeque::from(stock.cans),
            finishers: VecDeque::from(stock.finishers),
        }
    }

    /// Takes the next device of a kind.
    fn next(&mut self, kind: Kind) -> D
        requires { 0 < left_of self.old kind }
        ensures device { D.meaning result ≡ first_state kind }
        ensures left { AreTaken self.old self.new (kind ∷ []) }
    {
        match kind {
            Kind::Uart => self.uarts.pop_front().unwrap(),
            Kind::Can => self.cans.pop_front().unwrap(),
            Kind::Finisher => self.finishers.pop_front().unwrap(),
        }
    }

    /// Takes devices of these kinds, in their order. After an `Err` none is taken.
    pub fn take(&mut self, alloc: Global, kinds: &[Kind]) -> Result<Vec<D>, NoMemory>
        requires { HasFor self.old kinds.now }
        ensures devices { IfOk result (λ devices.
            map D.meaning devices.items ≡ map first_state kinds.now) }
        ensures left { OnOk result (AreTaken self.old self.new kinds.now) }
        ensures err { OnErr result (self.new ≡ self.old) }
    {
        let mut devices = Vec::new(alloc);
        devices.reserve(kinds.len())?;
        for kind in kinds {
            devices.push_reserved(self.next(*kind));
        }
        Ok(devices)
    }

    /// Puts a device back, before all others of its kind.
    fn put_back(&mut self, device: D)
        requires reset { D.meaning device ≡ first_state (kind_of (D.meaning device)) }
        requires room { HasRoomFor self.old (kind_of (D.meaning device) ∷ []) }
        ensures { AreTaken self.new self.old (kind_of (D.meaning device) ∷ []) }
    {
        match device.kind() {
            Kind::Uart => self.uarts.push_front_reserved(device),
            Kind::Can => self.cans.push_front_reserved(device),
            Kind::Finisher => self.finishers.push_front_reserved(device),
        }
    }

    /// Puts back the devices that were taken last, which are given in the order in which they were
    /// taken.
    pub fn give_back(&mut self, mut devices: Vec<D>)
        requires reset { All (λ d. D.meaning d ≡ first_state (kind_of (D.meaning d)))
            devices.items }
        requires room { HasRoomFor self.old (kinds_of (map D.meaning devices.items)) }
        ensures { AreTaken self.new self.old (kinds_of (map D.meaning devices.items)) }
    {
        while let Some(device) = devices.pop() {
            self.put_back(device);
        }
    }
}
