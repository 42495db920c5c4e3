//! Commands, and the result of parsing at a place of a script.
use crate::load::BlockText;
use bt_record::RecordLine;
use bt_row::{Columns, Filter};
use bt_rowtype::Item;
use bt_value::{Refusal, Sequence, Text, Texts};

/// The messages of a batch, in order.
pub type Items<'a> = Sequence<Item<'a>>;

/// The limit of the buffer of an inner node.
#[derive(Clone, Copy, Debug, Drop)]
pub enum Capacity {
    /// `C`: this many messages.
    Messages(u32),
    /// `Cb`: messages that weigh this many bytes together.
    Bytes(u32),
}

/// The parts of a `table` command.
#[derive(Drop)]
pub struct TableForm {
    /// The largest number of children of an inner node.
    pub fanout: u32,
    /// The limit of the buffer of an inner node.
    pub buffer: Capacity,
    /// The largest number of rows of a leaf.
    pub leaf: u32,
    /// The number of key columns; they come first.
    pub keys: u32,
    pub columns: Columns,
}

/// The parts of an `index` command.
#[derive(Drop)]
pub struct IndexForm {
    pub name: Text,
    /// The names of the columns that it is ordered by.
    pub on: Texts,
    /// The names of the columns that it includes.
    pub include: Texts,
    /// The filter on its rows; without a filter the index has all rows.
    pub filter: Option<Filter>,
}

/// The bounds of a range of rows. Each bound, if it is given, is a record of the first columns of a key.
#[derive(Drop)]
pub struct Bounds<'a> {
    /// The range begins at these values.
    pub from: Option<RecordLine<'a>>,
    /// The range ends before these values.
    pub to: Option<RecordLine<'a>>,
}

/// The parts of a `sums` command.
#[derive(Drop)]
pub struct SumsForm<'a> {
    /// The name of the tree.
    pub tree: Text,
    /// The number of its first columns that make a group.
    pub columns: u32,
    /// The name of the column that is summed.
    pub column: Text,
    pub bounds: Bounds<'a>,
}

/// A command.
#[derive(Drop)]
pub enum Command<'a> {
    /// `table F C L K name:kind ..`, with a `b` after C if C is a number of bytes
    Table(TableForm),
    /// `load` and the text of its block: CSV with a header.
    Load(BlockText<'a>),
    /// `batch` and its messages.
    Batch(Items<'a>),
    /// `get rec`: the row whose key these fields encode.
    Get(RecordLine<'a>),
    /// `scan TREE` and its bounds: the rows of a range.
    Scan(Text, Bounds<'a>),
    /// `sums TREE G COL` and its bounds: a count and a sum for each group of rows.
    Sums(SumsForm<'a>),
    /// `image TREE`: the nodes of a tree.
    Image(Text),
    /// `index NAME on LIST ..`: a new index.
    Index(IndexForm),
    /// `build NAME N`: one step of building an index, which is to read N rows.
    Build(Text, u32),
    /// `drop NAME`: an index is dropped.
    Drop(Text),
    /// `drain TREE`: the buffers of a tree are flushed.
    Drain(Text),
    /// `rebuild TREE`: a tree is rebuilt from its contents.
    Rebuild(Text),
}

/// The result of parsing at a place of a script.
#[derive(Drop)]
pub enum Parsed<'a> {
    /// No further command.
    End,
    /// A refusal and the place after it: text that is not a command (`Syntax`), or a command whose block is cut off (`Unfinished`).
    Bad { refusal: Refusal, next: usize },
    /// A command, and the place after it.
    Good { command: Command<'a>, next: usize },
}
