//! pcapng sections.

use crate::error::{CaptureError, Res};
use crate::order::Order;
use crate::packet::Packet;
use crate::pcapng::block::{Block, SECTION, next_block};
use crate::pcapng::interface::Interface;
use crate::pcapng::packets::{enhanced_packet, interface_in, packet_block, simple_packet};
use crate::piece::Piece;
use arrayvec::ArrayVec;

/// The maximum number of interfaces in a section.
pub const MOST_INTERFACES: usize = 64;

/// The state of a section: its byte order, and the interfaces described so far.
#[derive(Drop)]
pub struct Section {
    order: Order,
    interfaces: ArrayVec<Option<Interface>, MOST_INTERFACES>,
}

impl Section {
    ghost use Rattle.std.specs.Prelude.{◌≡◌, [], OnErr, option_map};
    ghost use Rattle.tc_capture.specs.Outcome.{seen, paired};
    ghost use Rattle.tc_capture.specs.Packet.{captured_of};
    ghost use Rattle.tc_capture.specs.Front.{front_of};
    ghost use Rattle.tc_capture.specs.Block.{block_of};
    ghost use Rattle.tc_capture.specs.PcapNg.{with_interface, new_section, effect_of, next_in_section};
    ghost use Rattle.tc_capture.specs.Section.{section_of};

    /// The state before the first section header block.
    pub(crate) fn new() -> Section
        ensures { section_of result ≡ record { order = Order.Little; interfaces = [] } }
    {
        Section {
            order: Order::Little,
            interfaces: ArrayVec::new(),
        }
    }

    // Begins a section with its header block.
    fn begin(&mut self, block: &Block<'_>) -> Res<()>
        ensures { (seen (λ _. None) result, section_of self.new) ≡ new_section (block_of block.now) }
    {
        self.order = block.order;
        self.interfaces.clear();
        if block.body.len() < 16 {
            return Err(CaptureError::BodyTooShort {
                needed: 16,
                left: block.body.len(),
            });
        }
        Ok(())
    }

    // Adds an interface.
    fn describe(&mut self, interface: Res<Interface>) -> Res<()>
        ensures { (seen (λ _. None) result, section_of self.new) ≡ with_interface (section_of self.old) interface }
    {
        if self.interfaces.is_full() {
            return Err(CaptureError::TooManyInterfaces);
        }
        match interface {
            Ok(interface) => {
                self.interfaces.push(Some(interface));
                Ok(())
            }
            Err(e) => {
                self.interfaces.push(None);
                Err(e)
            }
        }
    }

    // Handles a block, and returns its packet, if any.
    #[tactic(auto, unfolding(crate::specs::PcapNg::effect_of))]
    fn handle<'a>(&mut self, block: &Block<'a>) -> Res<Option<Packet<'a>>>
        ensures { (seen (option_map captured_of) result, section_of self.new) ≡ effect_of (section_of self.old) (block_of block.now) }
    {
        match block.kind {
            SECTION => match self.begin(block) {
                Ok(()) => Ok(None),
                Err(e) => Err(e),
            },
            1 => match self.describe(interface_in(self.order, block.body)) {
                Ok(()) => Ok(None),
                Err(e) => Err(e),
            },
            2 => match packet_block(self.interfaces.as_slice(), self.order, block.body) {
                Ok(packet) => Ok(Some(packet)),
                Err(e) => Err(e),
            },
            3 => match simple_packet(self.interfaces.as_slice(), self.order, block.body) {
                Ok(packet) => Ok(Some(packet)),
                Err(e) => Err(e),
            },
            6 => match enhanced_packet(self.interfaces.as_slice(), self.order, block.body) {
                Ok(packet) => Ok(Some(packet)),
                Err(e) => Err(e),
            },
            _ => Ok(None),
        }
    }

    /// Reads the block at the front.
    #[tactic(auto, unfolding(crate::specs::PcapNg::next_in_section))]
    pub(crate) fn next<'a>(&mut self, bytes: &'a [u8]) -> Res<Piece<'a>>
        ensures exact { paired result front_of (section_of self.new) ≡ next_in_section (section_of self.old) bytes.now }
        ensures kept { OnErr result (self.new ≡ self.old) }
    {
        let block = match next_block(self.order, bytes) {
            Ok(block) => block,
            Err(e) => return Err(e),
        };
        let packet = self.handle(&block);
        Ok(Piece {
            used: 12 + block.body.len(),
            packet,
        })
    }
}
