//! What requests may be about.

ghost use Rattle.std.specs.Prelude.{◌≡◌};
ghost use Rattle.std.specs.Str.{bytes_eq};
ghost use Rattle.tc_check.specs.Scope as scope;

/// The interfaces, the blocks and the stand-alone actions that requests may be about.
#[derive(Clone, Copy, Debug)]
pub struct Scope<'a> {
    /// Interfaces, by index.
    pub interfaces: &'a [u32],
    /// Blocks that interfaces share, by number.
    pub blocks: &'a [u32],
    /// Actions that are objects of their own.
    pub actions: &'a [ActionName<'a>],
}

/// The name of an action that is an object of its own.
#[derive(Clone, Copy, Debug)]
pub struct ActionName<'a> {
    /// The kind, without the NUL that ends it in a message.
    pub kind: &'a [u8],
    /// The index among the actions of this kind, which isn't 0.
    pub index: u32,
}

impl<'a> Scope<'a> {
    // True for an interface that requests may be about.
    pub(crate) fn has_interface(&self, index: u32) -> bool
        ensures { result ≡ scope.has_interface self.now index }
    {
        self.interfaces.iter().any(|own| *own == index)
    }

    // True for a block that requests may be about.
    pub(crate) fn has_block(&self, number: u32) -> bool
        ensures { result ≡ scope.has_block self.now number }
    {
        self.blocks.iter().any(|own| *own == number)
    }

    // True for an action that requests may be about.
    pub(crate) fn has_action(&self, kind: &[u8], index: u32) -> bool
        ensures { result ≡ scope.has_action self.now kind.now index }
    {
        self.actions
            .iter()
            .any(|own| own.index == index && own.kind == kind)
    }
}
