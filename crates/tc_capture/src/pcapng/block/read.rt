//! Reading a block.

ghost use Rattle.std.specs.Prelude.{◌≡◌, ◌+◌, ◌-◌, ◌≤◌, length, IfOk};
ghost use Rattle.tc_capture.specs.Outcome.{seen};
ghost use Rattle.tc_capture.specs.Block.{block_of};
ghost use Rattle.tc_capture.specs.PcapNg.{order_at, block_order, block_of_length, block_in, next_block};

use super::Block;
use crate::error::{CaptureError, Res};
use crate::order::Order;

/// The type of a section header block, the same in both byte orders.
pub(crate) const SECTION: u32 = 0x0a0d_0d0a;

// The byte order magic of a section.
const ORDER_MAGIC: u32 = 0x1a2b_3c4d;

// The length of a block without a body in bytes.
const EMPTY_BLOCK_LEN: usize = 12;

// The block at the front, in a section of this order.
#[tactic(auto, unfolding(crate::specs::PcapNg::next_block))]
pub(crate) fn next_block(order: Order, bytes: &[u8]) -> Res<Block<'_>>
    ensures { seen block_of result ≡ next_block order bytes.now }
{
    if bytes.len() < EMPTY_BLOCK_LEN {
        return Err(CaptureError::Short {
            needed: EMPTY_BLOCK_LEN,
            left: bytes.len(),
        });
    }
    match block_order(order, bytes) {
        Ok(order) => block_in(order, bytes),
        Err(e) => Err(e),
    }
}

fn block_order(order: Order, bytes: &[u8]) -> Res<Order>
    requires { 12 ≤ length bytes.now }
    ensures { result ≡ block_order order bytes.now }
{
    if Order::Little.u32_at(bytes, 0) == SECTION {
        order_at(bytes)
    } else {
        Ok(order)
    }
}

// The byte order of the section that begins here.
fn order_at(bytes: &[u8]) -> Res<Order>
    requires { 12 ≤ length bytes.now }
    ensures { result ≡ order_at bytes.now }
{
    if Order::Little.u32_at(bytes, 8) == ORDER_MAGIC {
        Ok(Order::Little)
    } else if Order::Big.u32_at(bytes, 8) == ORDER_MAGIC {
        Ok(Order::Big)
    } else {
        Err(CaptureError::NoByteOrder)
    }
}

#[tactic(auto, unfolding(crate::specs::PcapNg::block_in))]
fn block_in(order: Order, bytes: &[u8]) -> Res<Block<'_>>
    requires { 12 ≤ length bytes.now }
    ensures { seen block_of result ≡ block_in order bytes.now }
{
    let length = order.u32_at(bytes, 4) as usize;
    if length < EMPTY_BLOCK_LEN {
        return Err(CaptureError::BlockLength { length });
    }
    if length % 4 > 0 {
        return Err(CaptureError::BlockLength { length });
    }
    if bytes.len() < length {
        return Err(CaptureError::Short {
            needed: length,
            left: bytes.len(),
        });
    }
    let end = order.u32_at(bytes, length - 4) as usize;
    if end != length {
        return Err(CaptureError::BlockEnd { length, end });
    }
    Ok(block_of_length(length, order, bytes))
}

fn block_of_length(long: usize, order: Order, bytes: &[u8]) -> Block<'_>
    requires block { 12 ≤ long }
    requires whole { long ≤ length bytes.now }
    ensures { block_of result ≡ block_of_length long order bytes.now }
{
    let (front, _) = bytes.split_at(long - 4);
    let (_, body) = front.split_at(8);
    Block {
        order,
        kind: order.u32_at(bytes, 0),
        body,
    }
}
