//! Laws over the definitions. The functions do nothing: the contract of each function is the law.

ghost use Rattle.std.specs.Prelude.{ℕ, ◌≡◌, ◌≤◌};
ghost use Rattle.rlp_format.specs.Format.Encoding.{Item, item_depth, encoding};
ghost use Rattle.rlp_c.specs.{Rows.flat, Tree.{DescribeTree, tree_of}};

/// The rows of an item describe the item, so that `rlp_encode` writes what `rlp_flatten` has read.
pub fn rows_describe_their_item(bytes: &[u8])
    ensures describe { (most : ℕ) (x : Item) → bytes.now ≡ encoding x → item_depth x ≤ most
        → DescribeTree most bytes.now (flat 0 0 x) }
    ensures tree { (x : Item) → bytes.now ≡ encoding x → tree_of bytes.now (flat 0 0 x) ≡ x }
{}
