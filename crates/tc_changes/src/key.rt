//! The keys of objects.

/// The name of an object. No two objects of a state have the same.
#[derive(Clone, Copy, PartialEq, Eq, Hash, Drop, Debug)]
pub enum Key {
    /// A qdisc, by the place where it is: its interface and its parent (`tcm_parent`).
    Place {
        index: i32,
        parent: u32,
    },
    /// A class of an interface, by its handle.
    Class {
        index: i32,
        handle: u32,
    },
    /// A block that interfaces share, by its number.
    Block {
        number: u32,
    },
    /// A chain of filters, by its number. The interface is -1 in a block, and the parent is the block's number.
    Chain {
        index: i32,
        parent: u32,
        number: u32,
    },
    /// A priority of a chain. All of its filters have one kind and one protocol.
    Priority {
        index: i32,
        parent: u32,
        number: u32,
        priority: u32,
    },
    /// A filter, or a hash table of u32, by its handle.
    Filter {
        index: i32,
        parent: u32,
        number: u32,
        priority: u32,
        handle: u32,
    },
    /// An action, by its kind, padded with zeros, and its index in that kind.
    Action {
        kind: [u8; 16],
        index: u32,
    },
}
