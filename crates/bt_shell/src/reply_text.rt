//! The text of a reply, in pieces.
ghost use Rattle.std.specs.Prelude.{◌≡◌, ◌++◌, [], true, IsErrOf, OnErr, OnOk};
ghost use Rattle.bt_script.specs.Streams.{Took, TookPrefix, has_failed};
ghost use Rattle.bt_shell.specs.inside.Pieces.{text_of_pieces};

use bt_script::{Counted, RunFault, write_text};
use std::alloc::Global;
use std::io::Write;
use std::marker::Model;

/// The text of a reply. It may be in several pieces, which are written one after the other and never copied into one. A contract sees all its bytes.
#[derive(Drop)]
pub struct ReplyText {
    // The pieces before the last one, in order.
    pieces: Vec<Vec<u8>>,
    last: Vec<u8>,
}

impl Model for ReplyText {
    ghost use Rattle.std.specs.Prelude.{List, ◌++◌, ℕ};
    ghost use Rattle.bt_shell.specs.inside.Pieces.{text_of_pieces};

    ghost Value = { List ℕ };

    ghost view = { λ t. text_of_pieces t.pieces.items ++ t.last.items };
}

/// The memory of an earlier reply, into which a later one is written.
#[derive(Drop)]
pub struct ReplyRoom {
    bytes: Vec<u8>,
}

impl ReplyRoom {
    /// No memory yet.
    pub fn new(alloc: Global) -> Self {
        ReplyRoom {
            bytes: Vec::new(alloc),
        }
    }

    /// An empty text in this memory.
    pub fn into_text(self) -> Vec<u8>
        ensures { result.items ≡ [] }
    {
        let ReplyRoom { bytes: mut text } = self;
        text.clear();
        text
    }
}

// Writes pieces one after the other. If it fails, a prefix of their bytes is written.
fn write_pieces<W: Write>(writer: &mut Counted<W>, pieces: &[Vec<u8>]) -> Result<(), RunFault>
    ensures ok { OnOk result (Took W.contents writer.old writer.new (text_of_pieces pieces.now)) }
    ensures healthy { OnOk result (has_failed writer.new ≡ has_failed writer.old) }
    ensures err { OnErr result (TookPrefix W.contents writer.old writer.new (text_of_pieces pieces.now)) }
    ensures fault { OnErr result (IsErrOf result RunFault.Write × (has_failed writer.new ≡ true)) }
{
    for piece in pieces {
        write_text(writer, piece.as_slice())?;
    }
    Ok(())
}

impl ReplyText {
    /// A text in one piece. Allocates nothing.
    pub fn new(alloc: Global, text: Vec<u8>) -> Self
        ensures { result ≡ text.items }
    {
        ReplyText::from_pieces(Vec::new(alloc), text)
    }

    /// A text in several pieces, the last one given by itself.
    pub fn from_pieces(pieces: Vec<Vec<u8>>, last: Vec<u8>) -> Self
        ensures { result ≡ text_of_pieces pieces.items ++ last.items }
    {
        ReplyText { pieces, last }
    }

    /// Writes all of the text. If it fails, a prefix of the text is written. A write that fails is not tried again.
    pub fn write_to<W: Write>(&self, writer: &mut Counted<W>) -> Result<(), RunFault>
        ensures ok { OnOk result (Took W.contents writer.old writer.new self.now) }
        ensures healthy { OnOk result (has_failed writer.new ≡ has_failed writer.old) }
        ensures err { OnErr result (TookPrefix W.contents writer.old writer.new self.now) }
        ensures fault { OnErr result (IsErrOf result RunFault.Write × (has_failed writer.new ≡ true)) }
    {
        write_pieces(writer, self.pieces.as_slice())?;
        write_text(writer, self.last.as_slice())
    }

    /// The memory of the last piece.
    pub fn into_room(self) -> ReplyRoom {
        let ReplyText { last, .. } = self;
        ReplyRoom { bytes: last }
    }
}
