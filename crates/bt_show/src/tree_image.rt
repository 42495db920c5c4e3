//! The text of a tree.
ghost use Rattle.std.specs.Prelude.{◌≡◌, ◌<◌, ◌++◌, ◌∷◌, [], IfOk, OnOk, flat_map, length, slice_get};
ghost use Rattle.bt_form.specs.Walks.{children_of, messages_of, rows_of};
ghost use Rattle.bt_show.specs.inside.Drawings.{own_text, pivot_text};
ghost use Rattle.bt_show.specs.Images as spec;

use crate::drawing::Drawing;
use crate::tree_usage::usage_of;
use bt_keycode::Key;
use bt_messages::{Merge, Message};
use bt_node::Walk;
use bt_value::{Text, write_number};
use itoa::Buffer;
use std::alloc::{AllocError, Global};

// The indent one level deeper.
fn deeper(alloc: Global, indent: &[u8]) -> Result<Vec<u8>, AllocError>
    ensures { IfOk result (λ below. below.items ≡ spec.deeper indent.now) }
{
    let mut below = Vec::from_slice(alloc, indent)?;
    below.extend_from_slice(b"  ")?;
    Ok(below)
}

// Appends the start of a line: an indent, a mark and a key.
fn write_key(out: &mut Vec<u8>, indent: &[u8], mark: u8, key: &Key) -> Result<(), AllocError>
    ensures { OnOk result (out.new.items ≡ out.old.items ++ spec.key_start indent.now (mark ∷ []) key.now) }
{
    out.extend_from_slice(indent)?;
    out.extend_from_slice(&[mark, b' '])?;
    key.write_hex(out)
}

// Appends a line with a mark and a key, and nothing after the key.
fn write_key_line(out: &mut Vec<u8>, indent: &[u8], mark: u8, key: &Key) -> Result<(), AllocError>
    ensures { OnOk result (out.new.items ≡ out.old.items ++ spec.key_line indent.now (mark ∷ []) key.now []) }
{
    write_key(out, indent, mark, key)?;
    out.push(b'\n')?;
    Ok(())
}

// Appends a line with a mark, a key and a value.
fn write_value_line<V: Merge, D: Drawing<V>>(
    out: &mut Vec<u8>,
    drawing: &D,
    indent: &[u8],
    mark: u8,
    key: &Key,
    value: &V,
) -> Result<(), AllocError>
    ensures { OnOk result (out.new.items ≡ out.old.items ++ spec.key_line indent.now (mark ∷ []) key.now (D.value_text drawing.now value.now)) }
{
    write_key(out, indent, mark, key)?;
    drawing.write_value(out, value)?;
    out.push(b'\n')?;
    Ok(())
}

// Appends the line of a message that is pending.
fn write_message_line<V: Merge, D: Drawing<V>>(
    alloc: Global,
    out: &mut Vec<u8>,
    drawing: &D,
    indent: &[u8],
    key: &Key,
    message: &Message<V>,
) -> Result<(), AllocError>
    ensures { OnOk result (out.new.items ≡ out.old.items ++ spec.message_line (D.value_text drawing.now) (D.delta_text drawing.now) indent.now (key.now, message.now)) }
{
    match message {
        Message::Put(value) => write_value_line(out, drawing, indent, b'+', key, value),
        Message::Del => write_key_line(out, indent, b'-', key),
        Message::Ups(delta) => {
            write_key(out, indent, b'~', key)?;
            drawing.write_delta(alloc, out, delta)?;
            out.push(b'\n')?;
            Ok(())
        }
    }
}

// Appends the first line of a leaf.
fn write_leaf_line(out: &mut Vec<u8>, indent: &[u8], rows: usize) -> Result<(), AllocError>
    ensures { OnOk result (out.new.items ≡ out.old.items ++ spec.leaf_line indent.now rows) }
{
    out.extend_from_slice(indent)?;
    out.extend_from_slice(b"leaf ")?;
    write_number(out, rows as u64)?;
    out.push(b'\n')?;
    Ok(())
}

// Appends the first line of an inner node.
fn write_inner_line(
    out: &mut Vec<u8>,
    indent: &[u8],
    children: usize,
    messages: u128,
) -> Result<(), AllocError>
    ensures { OnOk result (out.new.items ≡ out.old.items ++ spec.inner_line indent.now children messages) }
{
    out.extend_from_slice(indent)?;
    out.extend_from_slice(b"inner ")?;
    write_number(out, children as u64)?;
    out.push(b' ')?;
    out.extend_from_slice(Buffer::new().format(messages).as_bytes())?;
    out.push(b'\n')?;
    Ok(())
}

// Appends the first line of an image.
fn write_first_line(out: &mut Vec<u8>, name: &Text, height: u64) -> Result<(), AllocError>
    ensures { OnOk result (out.new.items ≡ out.old.items ++ spec.first_line name.now height) }
{
    out.extend_from_slice(b"image ")?;
    out.extend_from_slice(name.as_bytes())?;
    out.extend_from_slice(b" height ")?;
    write_number(out, height)?;
    out.push(b'\n')?;
    Ok(())
}

// Appends the lines of the rows of a leaf.
fn write_rows<V: Merge, D: Drawing<V>>(
    out: &mut Vec<u8>,
    drawing: &D,
    indent: &[u8],
    walk: &Walk<V>,
) -> Result<(), AllocError>
    ensures { OnOk result (out.new.items ≡ out.old.items ++ flat_map (spec.leaf_row_line (D.value_text drawing.now) indent.now) (rows_of walk.now)) }
{
    for place in 0..walk.row_count() {
        let (key, value) = walk.row(place);
        write_value_line(out, drawing, indent, b'=', key, value)?;
    }
    Ok(())
}

// Appends the lines of the messages of an inner node.
fn write_messages<V: Merge, D: Drawing<V>>(
    alloc: Global,
    out: &mut Vec<u8>,
    drawing: &D,
    indent: &[u8],
    walk: &Walk<V>,
) -> Result<(), AllocError>
    ensures { OnOk result (out.new.items ≡ out.old.items ++ flat_map (spec.message_line (D.value_text drawing.now) (D.delta_text drawing.now) indent.now) (messages_of walk.now)) }
{
    for (key, message) in walk.messages() {
        write_message_line(alloc, out, drawing, indent, key, message)?;
    }
    Ok(())
}

// Appends the lines of a node without those of its children; all but the first have the deeper indent.
fn write_own_lines<V: Merge, D: Drawing<V>>(
    alloc: Global,
    out: &mut Vec<u8>,
    drawing: &D,
    indent: &[u8],
    below: &[u8],
    walk: &Walk<V>,
) -> Result<(), AllocError>
    ensures { OnOk result (out.new.items ≡ out.old.items ++ own_text (D.value_text drawing.now) (D.delta_text drawing.now) indent.now below.now walk.now) }
{
    if walk.is_leaf() {
        write_leaf_line(out, indent, walk.row_count())?;
        write_rows(out, drawing, below, walk)
    } else {
        write_inner_line(out, indent, walk.child_count(), walk.message_count())?;
        write_messages(alloc, out, drawing, below, walk)
    }
}

// Appends the line of the pivot before a child, except before the first.
fn write_pivot<V: Merge>(
    out: &mut Vec<u8>,
    indent: &[u8],
    walk: &Walk<V>,
    place: usize,
) -> Result<(), AllocError>
    requires { place < length (children_of walk.now) }
    ensures { OnOk result (out.new.items ≡ out.old.items ++ pivot_text indent.now place (slice_get (children_of walk.now) place)) }
{
    if place == 0 {
        return Ok(());
    }
    write_key_line(out, indent, b'|', walk.pivot(place))
}

// Appends the lines of a node and of those below it.
fn write_node<V: Merge, D: Drawing<V>>(
    alloc: Global,
    out: &mut Vec<u8>,
    drawing: &D,
    indent: &[u8],
    walk: &Walk<V>,
) -> Result<(), AllocError>
    ensures { OnOk result (out.new.items ≡ out.old.items ++ spec.node_text (D.value_text drawing.now) (D.delta_text drawing.now) indent.now walk.now) }
{
    let spaces = deeper(alloc, indent)?;
    let below = spaces.as_slice();
    write_own_lines(alloc, out, drawing, indent, below, walk)?;
    for place in 0..walk.child_count() {
        write_pivot(out, below, walk, place)?;
        let child = walk.child(place);
        write_node(alloc, out, drawing, below, &child)?;
    }
    Ok(())
}

/// The image of a tree under its name.
pub fn image_text<V: Merge, D: Drawing<V>>(
    alloc: Global,
    drawing: &D,
    name: &Text,
    walk: &Walk<V>,
) -> Result<Vec<u8>, AllocError>
    ensures { IfOk result (λ text. text.items ≡ spec.image_text (D.value_text drawing.now) (D.delta_text drawing.now) name.now walk.now) }
{
    let mut text = Vec::new(alloc);
    write_first_line(&mut text, name, usage_of(walk).height)?;
    write_node(alloc, &mut text, drawing, &[], walk)?;
    text.extend_from_slice(b"end\n")?;
    Ok(text)
}
