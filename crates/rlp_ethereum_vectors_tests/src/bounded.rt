//! Reading with a bound on the number of items, also messages of strangers.

use rlp::DecoderError;
use rlp_ethereum_vectors::at_most;
use rlp_messages::{Eth68Message, Eth69Message};
use rlp_p2p::{Message, MessageBounds, Numbered};
use rlp_vectors::rows::{Line, bytes_in, bytes_of};
use std::alloc::{AllocError, Global};
use std::test::Fail;

/// Rows of the most items, a type, bytes, and the answer: `Ok`, or the fault. Their calls don't
/// allocate.
const WITHOUT_MEMORY: &str = "
    A withdrawal has five items: four numbers or strings, and their list.
    5 Withdrawal | d8010294030303030303030303030303030303030303030304 | Ok
    6 Withdrawal | d8010294030303030303030303030303030303030303030304 | Ok
    4 Withdrawal | d8010294030303030303030303030303030303030303030304 | Custom(\"too many items\")
    0 Withdrawal | 80 | Custom(\"too many items\")

    Bytes with more items aren't read, so they have no fault of the type.
    5 Withdrawal | d80102 | RlpIsTooShort
    3 Withdrawal | c3010203 | Custom(\"too many items\")
    4 Withdrawal | c3010203 | RlpIncorrectListLen

    A transaction of type 1 with an access list of one item: its string, and the 16 items in it. In the
    body of a block there are three lists more.
    16 Transaction | b86701f8640107843b9aca0082c350943535353535353535353535353535353535353\
     5350582cafef838f7941111111111111111111111111111111111111111e1a02222222222222222222222222222222\
     22222222222222222222222222222222201821111822222 | Custom(\"too many items\")
    19 Body | f86cf869b86701f8640107843b9aca0082c35094353535353535353535353535353535353535\
     35350582cafef838f7941111111111111111111111111111111111111111e1a0222222222222222222222222222222\
     222222222222222222222222222222222201821111822222c0 | Custom(\"too many items\")

    The payload of type 2 is the list of no items. Type 5 isn't read.
    1 AnyTransaction | 8202c0 | Custom(\"too many items\")
    2 AnyTransaction | 8202c0 | RlpIncorrectListLen
    1 Transaction | 8205c0 | Custom(\"unknown transaction type\")

    A payload that isn't an encoding, because of a needless header, counts its three bytes. One that is
    cut counts nothing.
    3 Transaction | 8401c28105 | Custom(\"too many items\")
    4 Transaction | 8401c28105 | RlpIncorrectListLen
    1 Transaction | 8301c305 | RlpIsTooShort

    A withdrawal whose address is 1 and the encoding of a list of 18 items. It is no envelope.
    4 Withdrawal | d801029401d280808080808080808080808080808080808004 | Custom(\"too many items\")
    5 Withdrawal | d801029401d280808080808080808080808080808080808004 | Ok

    The string of 1 and a list of three items, in a body of a block: as a transaction, as the input of a
    legacy transaction, and in the place of the list of the transactions.
    7 Body | c8c68501c3000000c0 | Custom(\"too many items\")
    12 Body | d1cfce80808080808501c30000001b0101c0 | Custom(\"too many items\")
    2 Body | c78501c3000000c0 | Custom(\"too many items\")
    3 Body | c78501c3000000c0 | RlpExpectedToBeList

    A request for the receipts of 30 blocks has 33 items, and the end of a connection 31.
    5 eth/68 | 1fe2820457de80808080808080808080808080808080\
     8080808080808080808080808080 | Custom(\"too many items\")
    32 eth/69 | 1fe2820457de80808080808080808080808080808080\
     8080808080808080808080808080 | Custom(\"too many items\")
    5 p2p | 01de0404040404040404040404040404040404040404\
     04040404040404040404 | Custom(\"too many items\")
    30 p2p | 01de0404040404040404040404040404040404040404\
     04040404040404040404 | Custom(\"too many items\")

    The string in messages: as a transaction of Transactions, PooledTransactions, NewBlock and BlockBodies,
    and in the place of a receipt of Receipts, which is an envelope in eth/68 alone.
    5 eth/68 | 12c68501c3000000 | Custom(\"too many items\")
    7 eth/69 | 1aca820457c68501c3000000 | Custom(\"too many items\")
    10 eth/68 | 17cbc9c0c68501c3000000c080 | Custom(\"too many items\")
    10 eth/69 | 16cd820457c9c8c68501c3000000c0 | Custom(\"too many items\")
    8 eth/68 | 20cb820457c7c68501c3000000 | Custom(\"too many items\")
    4 eth/69 | 20cb820457c7c68501c3000000 | Custom(\"too many items\")
";

/// Notes a row whose call tells something else. The bytes of its digits take no memory.
fn check_row(alloc: Global, call: &str, rest: &str, wrong: &mut Line) {
    let (digits, want) = rest.split_once(" | ").unwrap_or((rest, ""));
    let (mut buffer, mut said) = ([0; 256], Line::new());
    let _ = match at_most(alloc, call, bytes_in(digits, &mut buffer)) {
        Ok(()) => said.display("Ok"),
        Err(fault) => said.display(fault),
    };
    wrong.note(call, digits, said.as_str(), want);
}

/// The rows, also if every allocation is refused.
#[test]
fn without_memory(rt: HostRuntime) -> Result<(), Fail> {
    let mut wrong = Line::new();
    for line in WITHOUT_MEMORY.lines() {
        if let Some((call, rest)) = line.trim().split_once(" | ") {
            check_row(rt.alloc(), call, rest, &mut wrong);
        }
    }
    wrong.none_noted()
}

/// Returns the bounds.
fn most(bytes: usize, items: usize) -> MessageBounds {
    MessageBounds { bytes, items }
}

/// Returns the bytes of a request for the receipts of a million blocks, after 16. Each hash is
/// empty, which a reader without a bound learns from the first.
fn million(alloc: Global) -> Result<Vec<u8>, AllocError> {
    let mut bytes = bytes_of(alloc, "1ffa0f4247820457fa0f4240")?;
    for _ in 0..1_000_000 {
        bytes.push(0x80)?;
    }
    Ok(bytes)
}

#[test]
fn a_million_items(rt: HostRuntime) -> Result<(), Fail> {
    let alloc = rt.alloc();
    let bytes = million(alloc)?;
    let read = |bounds| Eth68Message::from_message_at_most(alloc, 0x10, bytes.as_slice(), bounds);
    let many = DecoderError::Custom("too many items");
    assert_eq!(rt; read(most(1_000_012, 4096)).err(), Some(many));
    let many = DecoderError::Custom("too many items");
    assert_eq!(rt; read(most(1_000_012, 1_000_002)).err(), Some(many));
    assert_eq!(rt;
        read(most(1_000_012, 1_000_003)).err(),
        Some(DecoderError::RlpIsTooShort)
    );
    let long = DecoderError::Custom("too many bytes");
    assert_eq!(rt; read(most(1_000_011, 1_000_003)).err(), Some(long));
    Ok(())
}

#[test]
fn bounds_of_requests(rt: HostRuntime) -> Result<(), Fail> {
    let alloc = rt.alloc();
    let request = "1ff847820457f842a0+00*28+deadc0dea0+00*28+feedbeef";
    let bytes = bytes_of(alloc, request)?;
    let slice = bytes.as_slice();
    let read = Eth68Message::from_message_at_most(alloc, 0x10, slice, most(74, 5))?;
    assert!(rt; read.to_message(alloc, 0x10)?.as_slice() == slice);
    let read = Eth69Message::from_message_at_most(alloc, 0x10, slice, most(74, 5))?;
    assert!(rt; read.to_message(alloc, 0x10)?.as_slice() == slice);
    let few = Eth69Message::from_message_at_most(alloc, 0x10, slice, most(74, 4));
    assert_eq!(rt; few.err(), Some(DecoderError::Custom("too many items")));
    let short = Eth69Message::from_message_at_most(alloc, 0x10, slice, most(73, 5));
    assert_eq!(rt; short.err(), Some(DecoderError::Custom("too many bytes")));
    Ok(())
}

#[test]
fn ids_and_bodies(rt: HostRuntime) -> Result<(), Fail> {
    let message = Numbered::of(rt.alloc(), 0x10, &[0x13, 0xc0])?;
    assert!(rt; message.number == 3 && message.body == [0xc0].as_slice());
    let below = Numbered::of(rt.alloc(), 0x10, &[0x0f, 0xc0]).err();
    assert_eq!(rt; below, Some(DecoderError::Custom("unknown message")));
    Ok(())
}
