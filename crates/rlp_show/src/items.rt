//! Items of any kind, and nodes of the trie.

ghost use Rattle.std.specs.Prelude.{◌≡◌, IfOk, not, OnOk, true, false, option_map};
ghost use Rattle.rlp.specs.{Codec.raw_item, Views.View.{item_views, view_of}};
ghost use Rattle.rlp_trie.specs.TrieNodeLaws.{trie_node};
ghost use Rattle.rlp_show.specs.Items.{branch_entries, inner_shown, items_shown, key_of, kind_of, node_shown, pair_entries, shown_within, string_at};
ghost use Rattle.rlp_show.specs.{ItemDisplays.{node_display, raw_item_display}, Display.seen_as, Value.after, Value.object, Value.values_of};

use crate::records::written;
use crate::show::{ByForm, Show, ShowFields, fields, give_fields, inside, place_in, show_fields};
use crate::sink::{Bracket, BytesKind, Shown, Sink, bytes};
use crate::texts::put_digits;
use rlp::{RawItem, Rlp};
use rlp_records::{Hash, keccak256};
use rlp_trie::{TrieNode, ends_in_leaf};
use std::alloc::{AllocError, Global};

/// The number of nested lists of an item that are shown item by item. A list in so many lists is
/// shown as its encoding, so that a name has at most so many places more than the name of the item.
const MOST_LISTS: usize = 16;

impl Show for RawItem {
    ghost display = { seen_as raw_item.reading.seen raw_item_display };

    fn show<S: Sink>(&self, alloc: Global, name: &str, sink: &mut S) -> Result<(), AllocError> {
        show_item(alloc, name, self.as_bytes(), MOST_LISTS, false, sink)
    }
}

/// Returns the items of a list.
fn items_in<'a>(alloc: Global, list: &Rlp<'a>) -> Result<Vec<Rlp<'a>>, AllocError>
    ensures { IfOk result (λ items. items.items ≡ item_views list.now) }
{
    let mut items = Vec::new(alloc);
    let mut left = list.iter();
    while let Some(item) = left.next() {
        items.push(item)?;
    }
    Ok(items)
}

/// Returns the string that bytes begin with, or no bytes.
fn string_in(bytes: &[u8]) -> &[u8]
    ensures { result.now ≡ string_at bytes.now }
{
    match Rlp::new(bytes).decoder().string() {
        Ok(string) => string,
        Err(_) => &[],
    }
}

/// Gives a list to a sink as its encoding, which is these bytes, or as a list without items.
fn show_inner<S: Sink>(
    alloc: Global,
    name: &str,
    raw: &[u8],
    sink: &mut S,
) -> Result<(), AllocError>
    ensures { OnOk result (S.seen sink.new ≡ after S.steps name.now
        (inner_shown raw.now (item_views (view_of raw.now))) (S.seen sink.old)) }
{
    match Rlp::new(raw).iter().next() {
        Some(_) => {
            let encoding = Shown::Bytes(BytesKind::Encoding, raw);
            show_fields!(alloc, name, sink; "encoding" encoding)
        }
        None => sink.put(name, Shown::EmptyList),
    }
}

/// Gives the item that bytes begin with to a sink, as an item of any kind, or as a node that is kept
/// in its parent. A list in `most` nested lists is given as its encoding.
#[cycle(items)]
#[tactic(auto, using(crate::proofs::ItemLemmas::items_by_bytes))]
pub(crate) fn show_item<S: Sink>(
    alloc: Global,
    name: &str,
    raw: &[u8],
    most: usize,
    is_node: bool,
    sink: &mut S,
) -> Result<(), AllocError>
    ensures { OnOk result (S.seen sink.new
        ≡ after S.steps name.now (shown_within most is_node raw.now) (S.seen sink.old)) }
{
    let item = Rlp::new(raw);
    match item.decoder().string() {
        Ok(string) => return sink.put(name, bytes(string)),
        Err(_) if most == 0 => return show_inner(alloc, name, raw, sink),
        Err(_) => {}
    }
    let items = items_in(alloc, &item)?;
    if is_node {
        return show_node(alloc, name, None, items.as_slice(), most - 1, sink);
    }
    show_items(alloc, name, items.as_slice(), most - 1, false, sink)
}

/// Gives a list of items to a sink, each as an item of any kind or as a node.
#[cycle(items)]
#[tactic(auto, using(crate::proofs::ItemLemmas::items_taken))]
fn show_items<S: Sink>(
    alloc: Global,
    name: &str,
    items: &[Rlp<'_>],
    most: usize,
    is_node: bool,
    sink: &mut S,
) -> Result<(), AllocError>
    ensures { OnOk result (S.seen sink.new ≡ after S.steps name.now
        (items_shown (shown_within most) is_node items.now) (S.seen sink.old)) }
{
    if items.is_empty() {
        return sink.put(name, Shown::EmptyList);
    }
    sink.bracket(Bracket::OpenSquare)?;
    let mut rest = items;
    let mut index = 0;
    while let [first, others @ ..] = rest {
        let place = place_in(alloc, name, index)?;
        show_item(alloc, place.as_str(), first.as_raw(), most, is_node, sink)?;
        rest = others;
        index += 1;
    }
    sink.bracket(Bracket::CloseSquare)
}

/// Gives a list of items to a sink as a node: a leaf, an extension or a branch, which begins with
/// the hash, if a hash is given; a list of any other form is given as a list.
#[cycle(items)]
fn show_node<S: Sink>(
    alloc: Global,
    name: &str,
    hash: Option<Hash>,
    items: &[Rlp<'_>],
    most: usize,
    sink: &mut S,
) -> Result<(), AllocError>
    ensures { OnOk result (S.seen sink.new ≡ after S.steps name.now
        (node_shown (shown_within most) (option_map (λ h. h.0) hash) items.now) (S.seen sink.old)) }
{
    if items.len() == 17 {
        let value = items[16].as_raw();
        return show_branch(alloc, name, hash, &items[..16], value, most, sink);
    }
    let [first, second] = items else {
        return show_items(alloc, name, items, most, false, sink);
    };
    let path = string_in(first.as_raw());
    let raw = second.as_raw();
    match ends_in_leaf(path) {
        Some(is_leaf) => show_pair(alloc, name, hash, is_leaf, path, raw, most, sink),
        None => show_items(alloc, name, items, most, false, sink),
    }
}

/// Returns the name of the kind of a leaf or an extension, and the name of its value or its child.
fn names_of(is_leaf: bool) -> (&'static str, &'static str)
    ensures { (result.0.now ≡ kind_of is_leaf) × (result.1.now ≡ key_of is_leaf) }
{
    if is_leaf {
        return ("leaf", "value");
    }
    ("extension", "child")
}

/// Gives a leaf or an extension with this path to a sink. Its value or its child is the item that
/// bytes begin with.
#[cycle(items)]
fn show_pair<S: Sink>(
    alloc: Global,
    name: &str,
    hash: Option<Hash>,
    is_leaf: bool,
    path: &[u8],
    raw: &[u8],
    most: usize,
    sink: &mut S,
) -> Result<(), AllocError>
    ensures { OnOk result (S.seen sink.new ≡ after S.steps name.now
        (object (pair_entries (option_map (λ h. h.0) hash) is_leaf path.now
        (shown_within most (not is_leaf) raw.now))) (S.seen sink.old)) }
{
    let (kind, key) = names_of(is_leaf);
    let field = inside(alloc, name, key)?;
    let mut digits = String::new(alloc);
    put_digits(path, &mut digits)?;
    sink.bracket(Bracket::OpenBrace)?;
    give_fields!(alloc, name, sink;
        "hash" ? &hash; "node" Shown::Text(kind); "path" Shown::Bytes(BytesKind::Path, path);
        ByForm((), fields!("nibbles" Shown::Text(digits.as_str())))
    )?;
    sink.key(key)?;
    show_item(alloc, field.as_str(), raw, most, !is_leaf, sink)?;
    sink.bracket(Bracket::CloseBrace)
}

/// Gives a branch with these children to a sink. Its value is the item that bytes begin with.
#[cycle(items)]
fn show_branch<S: Sink>(
    alloc: Global,
    name: &str,
    hash: Option<Hash>,
    children: &[Rlp<'_>],
    raw: &[u8],
    most: usize,
    sink: &mut S,
) -> Result<(), AllocError>
    ensures { OnOk result (S.seen sink.new ≡ after S.steps name.now
        (object (branch_entries (option_map (λ h. h.0) hash)
        (values_of (λ v. shown_within most true v.bytes) children.now)
        (shown_within most false raw.now))) (S.seen sink.old)) }
{
    let children_name = inside(alloc, name, "children")?;
    let value_name = inside(alloc, name, "value")?;
    sink.bracket(Bracket::OpenBrace)?;
    give_fields!(alloc, name, sink; "hash" ? &hash; "node" Shown::Text("branch"))?;
    sink.key("children")?;
    show_items(alloc, children_name.as_str(), children, most, true, sink)?;
    sink.key("value")?;
    show_item(alloc, value_name.as_str(), raw, most, false, sink)?;
    sink.bracket(Bracket::CloseBrace)
}

/// The hash of the node, its kind and its fields.
impl Show for TrieNode {
    ghost display = { seen_as trie_node.reading.seen node_display };

    #[tactic(auto, using(crate::proofs::ItemLemmas::other_nodes), unfolding(crate::specs::ItemDisplays::node_display))]
    fn show<S: Sink>(&self, alloc: Global, name: &str, sink: &mut S) -> Result<(), AllocError> {
        let bytes = written(alloc, self)?;
        let hash = Some(Hash(keccak256(bytes.as_slice())));
        if let TrieNode::Empty = self {
            return show_fields!(alloc, name, sink; "hash" ? &hash; "node" Shown::Text("empty"));
        }
        let items = items_in(alloc, &Rlp::new(bytes.as_slice()))?;
        show_node(alloc, name, hash, items.as_slice(), MOST_LISTS, sink)
    }
}
