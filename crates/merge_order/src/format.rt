//! Orders as bytes.

ghost use Rattle.std.specs.Prelude.{◌≡◌, ◌<◌, ◌+◌, ◌^◌, ℕ, List, Ok, false, length, nat_eq, IfErr, IfOk, EachIndex, slice_index};
ghost use Rattle.std.specs.List.{starts_with};
ghost use Rattle.std.specs.Int.{w32, from_le_bytes};
ghost use Rattle.merge_order.specs.Spelling.{order_magic, spelling, AreVats, steps_at, spelled_order, GivesOrderInMemory};

use crate::error::OrderError;
use crate::order::Order;
use bytes::Bytes;
use std::alloc::{AllocError, Global};

/// The bytes that begin each order.
const MAGIC: &[u8; 8] = b"VATORD01";

/// The number of a step.
fn step_of(step: &[u8]) -> u32
    requires { length step.now ≡ 4 }
    ensures { result ≡ from_le_bytes w32 step.now }
{
    u32::from_le_bytes([step[0], step[1], step[2], step[3]])
}

/// The steps that these bytes spell, the first of which stands at the offset 8.
fn steps_of(alloc: Global, bytes: &[u8]) -> Result<Vec<u32>, OrderError>
    requires { length bytes.now + 8 < 2 ^ 64 }
    ensures { GivesOrderInMemory (λ vats. vats.items) result (steps_at 8 bytes.now) }
{
    let mut vats = Vec::new(alloc);
    let mut rest = bytes;
    let mut at = 8;
    while !rest.is_empty() {
        if rest.len() < 4 {
            return Err(OrderError::Short(at));
        }
        let (step, after) = rest.split_at(4);
        vats.push(step_of(step))?;
        rest = after;
        at += 4;
    }
    Ok(vats)
}

/// The order that the bytes spell.
#[tactic(auto, unfolding(crate::specs::Spelling::spelled_order))]
fn order_in(alloc: Global, bytes: &[u8]) -> Result<Order, OrderError>
    ensures exact { GivesOrderInMemory (λ order. order) result (spelled_order bytes.now) }
    ensures octets { EachIndex bytes.now (λ i. slice_index bytes.now i < 256) }
    ensures early { starts_with nat_eq bytes.now order_magic ≡ false
        → IfErr result (λ e. e ≡ OrderError.BadMagic) }
{
    if !bytes.starts_with(MAGIC) {
        return Err(OrderError::BadMagic);
    }
    let (_, steps) = bytes.split_at(8);
    Ok(Order::new(steps_of(alloc, steps)?))
}

/// The order that the bytes spell: the magic `VATORD01`, then a number of 4 bytes for each step, its lowest byte first.
///
/// # Errors
///
/// [`OrderError::BadMagic`] where the first 8 bytes aren't the magic, [`OrderError::Short`] with the offset of a step that
/// is cut; or [`OrderError::OutOfMemory`], where a growth was refused.
pub fn read_order(alloc: Global, bytes: Bytes) -> Result<Order, OrderError>
    // Which order, or which fault.
    ensures exact { GivesOrderInMemory (λ order. order) result (spelled_order bytes) }
    // What is read is spelled so.
    ensures found { IfOk result (λ order. AreVats order × (bytes ≡ spelling order)) }
    // What is spelled so is read, unless memory runs out.
    ensures only { (vats : List ℕ) → AreVats vats → bytes ≡ spelling vats
        → GivesOrderInMemory (λ order. order) result (Ok vats) }
    // Another magic is refused as such before memory is asked for.
    ensures early { starts_with nat_eq bytes order_magic ≡ false
        → IfErr result (λ e. e ≡ OrderError.BadMagic) }
{
    order_in(alloc, bytes.as_slice())
}

/// The one spelling of an order. The only error is that memory ran out.
pub fn write_order(alloc: Global, order: &Order) -> Result<Bytes, AllocError>
    ensures { IfOk result (λ bytes. bytes ≡ spelling order.now) }
{
    let mut out = Vec::new(alloc);
    out.extend_from_slice(MAGIC)?;
    for vat in order.as_slice() {
        out.extend_from_slice(&vat.to_le_bytes())?;
    }
    Ok(Bytes::from_vec(out)?)
}
