//! Where in its bytes a value can't be read.

ghost use Rattle.std.specs.Prelude.{◌≡◌, ◌⊎◌, IfOk, IfErr, IsSome, IsTrue, OnOk, ◌↔◌, List};
ghost use Rattle.rlp_reading.specs.{declared.error.DecoderError.TheVariants.{OutOfMemory}, Form.{Faults, Gives, IsFound, IsPlaced, fault_path, list_reading, within}};

use crate::rlpin::{Fields, Rlp};
use crate::traits::Decodable;
use rlp_reading::error::DecoderError;
use std::alloc::{AllocError, Global};

/// A type that says which item of its bytes is at fault.
pub trait DecodePlaced: Decodable {
    /// Appends the places that lead to the item that [`Decodable::decode`] fails on: the place in
    /// the outermost list, then the place in the list found there, and so on, each counted from 0.
    /// Appends nothing if the fault is a fault of the view as a whole. It reads the view again. For
    /// a view that gives a value, `path` may be anything.
    ///
    /// Fails with `AllocError` if memory is refused.
    fn put_path(alloc: Global, rlp: &Rlp<'_>, path: &mut Vec<usize>) -> Result<(), AllocError>
        ensures { OnOk result (IsPlaced (Self.reading.read rlp.now) path.old.items path.new.items) };
}

/// Why a value can't be read, and where.
#[derive(Debug, PartialEq, Eq, Drop)]
pub struct PlacedFault {
    /// The places that lead to the item at fault, as [`DecodePlaced::put_path`] appends them.
    pub path: Vec<usize>,
    /// The fault.
    pub fault: DecoderError,
}

/// Reads the value that the view begins with, as [`Decodable::decode`] does, and says where it
/// fails. It allocates the path of a fault, and fails with `OutOfMemory` and some path if memory is
/// refused.
///
/// ```rust
/// let fault = rlp::decode_placed::<Vec<u8>>(alloc, &rlp::Rlp::new(&[0xc0])).unwrap_err();
/// assert!(rt; fault.path.is_empty());
/// ```
pub fn decode_placed<T: DecodePlaced>(alloc: Global, rlp: &Rlp<'_>) -> Result<T, PlacedFault>
    ensures value { IfOk result (λ x. Gives T.reading rlp.now x) }
    ensures fault { IfErr result (λ e. (Faults T.reading rlp.now e.fault
        × (e.path.items ≡ (T.reading.read rlp.now).path)) ⊎ (e.fault ≡ OutOfMemory)) }
{
    let mut path = Vec::new(alloc);
    match T::decode(alloc, rlp) {
        Ok(value) => Ok(value),
        Err(fault) => match T::put_path(alloc, rlp, &mut path) {
            Ok(()) => Err(PlacedFault { path, fault }),
            Err(AllocError) => Err(PlacedFault {
                path,
                fault: DecoderError::OutOfMemory,
            }),
        },
    }
}

/// Returns whether the view has a fault. Fails with `AllocError` if memory is refused.
pub(crate) fn has_fault<T: Decodable>(alloc: Global, rlp: &Rlp<'_>) -> Result<bool, AllocError>
    ensures { IfOk result (λ found. IsTrue found ↔ IsSome (fault_path (T.reading.read rlp.now))) }
{
    match T::decode(alloc, rlp) {
        Ok(_) => Ok(false),
        Err(DecoderError::OutOfMemory) => Err(AllocError),
        Err(_) => Ok(true),
    }
}

/// Appends the places that lead to the item at fault in the item at this place, if that item has a
/// fault, and returns whether it has.
pub(crate) fn put_item_path<T: DecodePlaced>(
    alloc: Global,
    place: usize,
    item: &Rlp<'_>,
    path: &mut Vec<usize>,
) -> Result<bool, AllocError>
    ensures { IfOk result (λ found.
        IsFound found (within place (T.reading.read item.now)) path.old.items path.new.items) }
{
    if !has_fault::<T>(alloc, item)? {
        return Ok(false);
    }
    path.push(place)?;
    T::put_path(alloc, item, path)?;
    Ok(true)
}

/// Appends the path of the first item that isn't a value of `T`, for a view that is read as a list
/// of values.
#[tactic(auto, using(rlp_reading::proofs::PathLaws::items_found))]
pub fn put_list_path<T: DecodePlaced>(
    alloc: Global,
    rlp: &Rlp<'_>,
    path: &mut Vec<usize>,
) -> Result<(), AllocError>
    ensures { OnOk result (IsPlaced ((list_reading (λ xs. xs) T.reading).read rlp.now)
        path.old.items path.new.items) }
{
    let Ok(mut items) = Fields::of_list(rlp) else {
        return Ok(());
    };
    let mut place = 0;
    while let Some(item) = items.next() {
        if put_item_path::<T>(alloc, place, &item, path)? {
            return Ok(());
        }
        place += 1;
    }
    Ok(())
}
