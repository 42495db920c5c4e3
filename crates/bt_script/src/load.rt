//! The text of a block.
ghost use Rattle.std.specs.Prelude.{◌≡◌, ◌≤◌, List, length, true, ℕ};
ghost use Rattle.bt_script.specs.inside.Blocks.{IsBlock, is_closed, place_after};
ghost use Rattle.bt_script.specs.Lines.{lines, text_of_lines};

use crate::blocks::{Block, BlockEnd};
use crate::lines::{is_word, next_line, without_return};
use std::marker::Model;

/// The text of a block as it is in the script, with its line breaks. A contract sees its bytes.
#[derive(Drop)]
pub struct BlockText<'a> {
    bytes: &'a [u8],
}

impl<'a> Model for BlockText<'a> {
    ghost use Rattle.std.specs.Prelude.{List, ℕ};

    ghost Value = { List ℕ };

    ghost view = { λ t. t.bytes.now };
}

impl<'a> BlockText<'a> {
    /// The bytes, borrowed from the script.
    pub fn as_bytes(&self) -> &'a [u8]
        ensures { result.now ≡ self.now }
    {
        self.bytes
    }
}

/// The text of a block with this closing line, or the rest of the script if no line closes it. Allocates nothing.
pub(crate) fn read_block_text<'a>(
    script: &'a [u8],
    start: usize,
    closing: &[u8],
) -> Block<BlockText<'a>>
    requires { start ≤ length script.now }
    ensures block { (block : List (List ℕ)) × (lines result.content ≡ block) × (is_closed result.end ≡ true → result.content ≡ text_of_lines block)
        × IsBlock script.now start closing.now block result.end }
    ensures within { (start ≤ place_after result.end) × (place_after result.end ≤ length script.now) }
{
    let mut at = start;
    while at < script.len() {
        let (line, next) = next_line(script, at);
        if is_word(without_return(line), closing) {
            return Block {
                content: BlockText {
                    bytes: &script[start..at],
                },
                end: BlockEnd::Closed(next),
            };
        }
        at = next;
    }
    Block {
        content: BlockText {
            bytes: &script[start..],
        },
        end: BlockEnd::CutOff(script.len()),
    }
}
