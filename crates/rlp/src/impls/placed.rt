//! Where reading fails, for values that are one string or one item of any kind, whose faults are
//! faults of the whole item, and for values that hold other values.

ghost use Rattle.std.specs.Prelude.{◌≡◌};

use crate::impls::RawItem;
use crate::rlpin::{Fields, Rlp};
use crate::structs::ListField;
use crate::traits::{DecodePlaced, put_item_path, put_list_path};
use bytes::{Bytes, BytesMut};
use rlp_format::Uint;
use std::alloc::{AllocError, Global};

impl DecodePlaced for bool {
    fn put_path(_alloc: Global, _rlp: &Rlp<'_>, _path: &mut Vec<usize>) -> Result<(), AllocError> {
        Ok(())
    }
}

impl DecodePlaced for u8 {
    fn put_path(_alloc: Global, _rlp: &Rlp<'_>, _path: &mut Vec<usize>) -> Result<(), AllocError> {
        Ok(())
    }
}

impl DecodePlaced for u16 {
    fn put_path(_alloc: Global, _rlp: &Rlp<'_>, _path: &mut Vec<usize>) -> Result<(), AllocError> {
        Ok(())
    }
}

impl DecodePlaced for u32 {
    fn put_path(_alloc: Global, _rlp: &Rlp<'_>, _path: &mut Vec<usize>) -> Result<(), AllocError> {
        Ok(())
    }
}

impl DecodePlaced for u64 {
    fn put_path(_alloc: Global, _rlp: &Rlp<'_>, _path: &mut Vec<usize>) -> Result<(), AllocError> {
        Ok(())
    }
}

impl DecodePlaced for usize {
    fn put_path(_alloc: Global, _rlp: &Rlp<'_>, _path: &mut Vec<usize>) -> Result<(), AllocError> {
        Ok(())
    }
}

impl DecodePlaced for u128 {
    fn put_path(_alloc: Global, _rlp: &Rlp<'_>, _path: &mut Vec<usize>) -> Result<(), AllocError> {
        Ok(())
    }
}

impl<const N: usize> DecodePlaced for Uint<N> {
    fn put_path(_alloc: Global, _rlp: &Rlp<'_>, _path: &mut Vec<usize>) -> Result<(), AllocError> {
        Ok(())
    }
}

impl<const N: usize> DecodePlaced for [u8; N] {
    fn put_path(_alloc: Global, _rlp: &Rlp<'_>, _path: &mut Vec<usize>) -> Result<(), AllocError> {
        Ok(())
    }
}

impl DecodePlaced for Vec<u8> {
    fn put_path(_alloc: Global, _rlp: &Rlp<'_>, _path: &mut Vec<usize>) -> Result<(), AllocError> {
        Ok(())
    }
}

impl DecodePlaced for Bytes {
    fn put_path(_alloc: Global, _rlp: &Rlp<'_>, _path: &mut Vec<usize>) -> Result<(), AllocError> {
        Ok(())
    }
}

impl DecodePlaced for BytesMut {
    fn put_path(_alloc: Global, _rlp: &Rlp<'_>, _path: &mut Vec<usize>) -> Result<(), AllocError> {
        Ok(())
    }
}

impl DecodePlaced for String {
    fn put_path(_alloc: Global, _rlp: &Rlp<'_>, _path: &mut Vec<usize>) -> Result<(), AllocError> {
        Ok(())
    }
}

impl DecodePlaced for RawItem {
    fn put_path(_alloc: Global, _rlp: &Rlp<'_>, _path: &mut Vec<usize>) -> Result<(), AllocError> {
        Ok(())
    }
}

impl<T: DecodePlaced> DecodePlaced for Box<T> {
    fn put_path(alloc: Global, rlp: &Rlp<'_>, path: &mut Vec<usize>) -> Result<(), AllocError> {
        T::put_path(alloc, rlp, path)
    }
}

impl<T: DecodePlaced> DecodePlaced for ListField<T> {
    fn put_path(alloc: Global, rlp: &Rlp<'_>, path: &mut Vec<usize>) -> Result<(), AllocError> {
        put_list_path::<T>(alloc, rlp, path)
    }
}

impl<T: DecodePlaced> DecodePlaced for Option<T> {
    fn put_path(alloc: Global, rlp: &Rlp<'_>, path: &mut Vec<usize>) -> Result<(), AllocError> {
        let Ok(mut items) = Fields::of(rlp) else {
            return Ok(());
        };
        let Some(item) = items.next() else {
            return Ok(());
        };
        if items.is_empty() {
            let _found = put_item_path::<T>(alloc, 0, &item, path)?;
        }
        Ok(())
    }
}
