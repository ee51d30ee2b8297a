//! What platform text says: entries with their heads and items.
use lab_num::{Rows, Text};

/// One entry: its head, the attributes and wires that belong to it, and where it stands.
#[derive(Drop)]
pub struct Entry {
    /// The number of the file, 0 for the text that was read.
    pub file: u32,
    /// The line of the head, from 1 on.
    pub line: u32,
    pub head: Head,
    /// The items in the order of the text.
    pub items: Rows<Item>,
}

/// The first line of an entry.
#[derive(Drop)]
pub enum Head {
    /// The entries of the file of this name stand here.
    Using(Text),
    /// A peripheral of the type `kind`.
    Typed { name: Text, kind: Text, at: Place },
    /// Further items of a peripheral that another entry gives its type.
    Update { name: Text },
}

/// Where a peripheral is registered.
#[derive(Clone, Copy)]
pub enum Place {
    /// Nowhere.
    Absent,
    /// At the bus, without an address.
    Bus,
    /// At the bus from this address on.
    Address(u32),
    /// At the bus, from `base` on, over `size` bytes.
    Range { base: u32, size: u32 },
}

/// One item of an entry, and its line, from 1 on.
#[derive(Drop)]
pub struct Item {
    pub line: u32,
    pub what: ItemWhat,
}

/// What an item says.
#[derive(Clone, Drop)]
pub enum ItemWhat {
    /// A value for the attribute `key`.
    Attribute { key: Text, value: Value },
    /// Interrupt lines of the entry, connected with the pins of the peripheral `to`.
    Wire { from: Ends, to: Text, pins: Ends },
}

/// The value of an attribute.
#[derive(Clone, Drop)]
pub enum Value {
    Number(u32),
    /// A string, without its quotes.
    Words(Text),
    Truth(bool),
    /// A name, or names joined by dots.
    Name(Text),
}

/// One end of a wire.
#[derive(Clone, Drop)]
pub enum Ends {
    Absent,
    /// The one interrupt line of a peripheral that has one.
    Irq,
    /// Numbers and ranges in the order of the text.
    Spans(Rows<Span>),
}

/// The numbers from `first` to `last`, both included. A number alone has the two equal.
#[derive(Clone, Copy)]
pub struct Span {
    pub first: u32,
    pub last: u32,
}
