//! Laws about the answers to lines. The functions do nothing: the contract of each function is the
//! law.

ghost use Rattle.std.specs.Prelude.{◌≡◌, ◌++◌, ◌↔◌, ℕ, List, [], length, All, IsTrue, codes, decimal};
ghost use Rattle.rlp.specs.{Format.Encoding.{Item, join, BeginsWith, IsSized}, Streams.Stream.Call, Streams.Described.{FinishAs, IsDescribedWhere}};
ghost use Rattle.rlp_tool.specs.{Answer.{SaysCalls, answer, finished_answer, open_answer}, RawItems.{AreRawItems, IsShallow, are_raw_items}};
ghost use Rattle.rlp_tool.specs.Building.{AreJoined, AreRefused, AreTaken, BringsNoItems, BringsTooMany, HasNothingToFinish, StayOpen};

use rlp::laws::{
    join_splits_into_encodings, parts_of_sized_are_sized, raw_items_are_shallow,
    stream_joins_what_is_described,
};

/// Raw bytes pass the test of the answers if and only if they are the joined encodings of the
/// announced number of items, and no item is too deep.
pub fn raw_items_are_tested(bytes: &[u8])
    ensures { (count : ℕ) → IsTrue (are_raw_items bytes.now count) ↔ AreRawItems bytes.now count }
{
    parts_of_sized_are_sized();
    raw_items_pass_the_test();
}

/// The joined encodings of items pass the test if no item is too deep. All bytes that pass the test
/// are the joined encodings of the announced number of items, and no item is too deep.
pub(crate) fn raw_items_pass_the_test()
    ensures pass { (items : List Item) → All IsSized items → All IsShallow items
        → IsTrue (are_raw_items (join items) (length items)) }
    ensures only { (bytes : List ℕ) (count : ℕ) → IsTrue (are_raw_items bytes count)
        → AreRawItems bytes count }
{
    raw_items_are_shallow();
    join_splits_into_encodings();
}

/// If the calls of a line describe items, the answer is `out` and the digits of the joined
/// encodings of these items. If no call fails and no list stays open, the calls describe items, and
/// the digits are the digits of the finished buffer. No other line of calls has an answer that
/// begins with `out`.
pub fn finished_lines_are_answered(line: &[u8])
    ensures described { (calls : List Call) (items : List Item) → SaysCalls line.now calls
        → IsDescribedWhere IsShallow [] calls items → answer line.now ≡ finished_answer (join items) }
    ensures finished { (calls : List Call) (bytes : List ℕ) → SaysCalls line.now calls
        → AreTaken [] calls → FinishAs [] calls bytes
        → AreJoined [] calls bytes × (answer line.now ≡ finished_answer bytes) }
    ensures only { (calls : List Call) → SaysCalls line.now calls
        → BeginsWith (answer line.now) (codes "out")
        → (items : List Item) × IsDescribedWhere IsShallow [] calls items
        × (answer line.now ≡ finished_answer (join items)) }
{
    parts_of_sized_are_sized();
    raw_items_pass_the_test();
    stream_joins_what_is_described();
}

/// If the calls of a line leave a list open, the answer is the closed size and the bytes now.
pub fn open_lines_are_answered(line: &[u8])
    ensures { (calls : List Call) (size : ℕ) (raw : List ℕ) → SaysCalls line.now calls
        → AreTaken [] calls → StayOpen [] calls size raw → answer line.now ≡ open_answer size raw }
{
    raw_items_pass_the_test();
}

/// The first call of a line that fails, and the reason, decide the answer.
pub fn refused_lines_are_answered(line: &[u8])
    ensures too_many { (calls : List Call) (place : ℕ) → SaysCalls line.now calls
        → AreRefused BringsTooMany [] calls place
        → answer line.now ≡ codes "error too many items at " ++ decimal place }
    ensures nothing_to_finish { (calls : List Call) (place : ℕ) → SaysCalls line.now calls
        → AreRefused HasNothingToFinish [] calls place
        → answer line.now ≡ codes "error nothing to finish at " ++ decimal place }
    ensures raw_not_items { (calls : List Call) (place : ℕ) → SaysCalls line.now calls
        → AreRefused BringsNoItems [] calls place
        → answer line.now ≡ codes "error raw not items at " ++ decimal place }
{
    raw_items_pass_the_test();
}
