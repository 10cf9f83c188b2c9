//! The total of a header, and the views of an item.

use rlp::{PayloadInfo, Rlp};
use std::alloc::{AllocError, Global};
use std::test::Fail;

#[test]
fn total_of_a_header(rt: HostRuntime) {
    let info = PayloadInfo {
        header_len: 1,
        value_len: 3,
    };
    assert!(rt; info.total() == 4);
}

/// Returns what `{:?}` prints of a view.
fn debug_text(alloc: Global, view: Option<Rlp<'_>>) -> Result<String, AllocError> {
    format!(in alloc; "{view:?}")
}

// Whichever call returns the view of an item, `{:?}` prints the same: the item is the string `cat`.
#[test]
fn views_of_an_item_print_alike(rt: HostRuntime) -> Result<(), Fail> {
    let (list, item) = (
        Rlp::new(&[0xc4, 0x83, b'c', b'a', b't']),
        Rlp::new(&[0x83, b'c', b'a', b't']),
    );
    let mut fields = list.fields()?;
    let want = debug_text(rt.alloc(), Some(item.clone()))?;
    let texts = [
        debug_text(rt.alloc(), list.at(0).ok())?,
        debug_text(rt.alloc(), list.iter().next())?,
        debug_text(rt.alloc(), fields.next())?,
        debug_text(rt.alloc(), Some(item.split_first()?.0))?,
    ];
    for text in texts.as_slice() {
        assert_eq!(rt; text.as_str(), want.as_str());
    }
    Ok(())
}
