//! The sizes that the nodes of a tree may have.
ghost use Rattle.std.specs.Prelude.{◌≡◌, ◌≤◌, false, true, IfErr, IfOk};
ghost use Rattle.bt_form.specs.Shapes.{is_shape};

use bt_messages::Measure;
use bt_value::Refusal;
use std::marker::Model;

/// The smallest fanout. With it, the parts into which children are dealt have at least two of them.
pub const SMALLEST_FANOUT: usize = 4;
/// The largest fanout.
pub const LARGEST_FANOUT: usize = 64;
/// The smallest buffer.
pub const SMALLEST_BUFFER: usize = 1;
/// The largest buffer, in messages.
pub const LARGEST_BUFFER: usize = 4096;
/// The largest buffer, in bytes.
pub const LARGEST_WEIGHED_BUFFER: usize = 1_048_576;
/// The smallest leaf.
pub const SMALLEST_LEAF: usize = 2;
/// The largest leaf.
pub const LARGEST_LEAF: usize = 1024;

/// The largest number of children of an inner node, the capacity and measure of its buffer, and the largest number of rows of a
/// leaf.
#[derive(Clone, Copy, Debug, Drop)]
pub struct Shape {
    fanout: u16,
    buffer: u32,
    leaf: u16,
    measure: Measure,
}

impl Model for Shape {
    ghost use Rattle.std.specs.Prelude.{◌≡◌, true};
    ghost use Rattle.bt_form.specs.Trees as tree;

    ghost Value = { tree.Shape };

    ghost use Rattle.bt_form.specs.Shapes.{is_shape};

    ghost view = { λ s. record { fanout = s.fanout; buffer = s.buffer; leaf = s.leaf; measure = s.measure } };

    ghost inverse = { λ s. record { fanout = s.fanout; buffer = s.buffer; leaf = s.leaf; measure = s.measure } };

    ghost invariant = { λ s. is_shape s.measure s.fanout s.buffer s.leaf ≡ true };
}

impl Shape {
    // A shape within the limits, or `BadShape`.
    fn of(measure: Measure, fanout: u32, buffer: u32, leaf: u32) -> Result<Self, Refusal>
        ensures ok { IfOk result (λ shape. shape ≡ record { fanout = fanout; buffer = buffer; leaf = leaf; measure = measure }) }
        ensures allowed { IfOk result (λ _. is_shape measure fanout buffer leaf ≡ true) }
        ensures refused { IfErr result (λ e. (e ≡ Refusal.BadShape) × (is_shape measure fanout buffer leaf ≡ false)) }
    {
        let (children, room, rows) = (fanout as usize, buffer as usize, leaf as usize);
        let most = match measure {
            Measure::Messages => LARGEST_BUFFER,
            Measure::Bytes => LARGEST_WEIGHED_BUFFER,
        };
        if children < SMALLEST_FANOUT
            || LARGEST_FANOUT < children
            || room < SMALLEST_BUFFER
            || most < room
            || rows < SMALLEST_LEAF
            || LARGEST_LEAF < rows
        {
            return Err(Refusal::BadShape);
        }
        Ok(Shape {
            fanout: fanout as u16,
            buffer,
            leaf: leaf as u16,
            measure,
        })
    }

    /// A fanout of 4 to 64, a buffer of 1 to 4,096 messages and a leaf of 2 to 1,024 rows, or `BadShape`.
    pub fn new(fanout: u32, buffer: u32, leaf: u32) -> Result<Self, Refusal>
        ensures ok { IfOk result (λ shape. shape ≡ record { fanout = fanout; buffer = buffer; leaf = leaf; measure = Measure.Messages }) }
        ensures allowed { IfOk result (λ _. is_shape Measure.Messages fanout buffer leaf ≡ true) }
        ensures refused { IfErr result (λ e. (e ≡ Refusal.BadShape) × (is_shape Measure.Messages fanout buffer leaf ≡ false)) }
    {
        Shape::of(Measure::Messages, fanout, buffer, leaf)
    }

    /// A fanout of 4 to 64, a buffer of 1 to 1,048,576 bytes and a leaf of 2 to 1,024 rows, or `BadShape`. Messages are weighed by
    /// `Message::weight`.
    pub fn weighed(fanout: u32, bytes: u32, leaf: u32) -> Result<Self, Refusal>
        ensures ok { IfOk result (λ shape. shape ≡ record { fanout = fanout; buffer = bytes; leaf = leaf; measure = Measure.Bytes }) }
        ensures allowed { IfOk result (λ _. is_shape Measure.Bytes fanout bytes leaf ≡ true) }
        ensures refused { IfErr result (λ e. (e ≡ Refusal.BadShape) × (is_shape Measure.Bytes fanout bytes leaf ≡ false)) }
    {
        Shape::of(Measure::Bytes, fanout, bytes, leaf)
    }

    /// The largest number of children of an inner node.
    pub fn fanout(self) -> usize
        ensures value { result ≡ self.fanout }
        ensures range { (SMALLEST_FANOUT ≤ result) × (result ≤ LARGEST_FANOUT) }
    {
        self.fanout as usize
    }

    /// The capacity of the buffer of an inner node, in messages or in bytes.
    pub fn buffer(self) -> usize
        ensures value { result ≡ self.buffer }
        ensures range { (SMALLEST_BUFFER ≤ result) × (result ≤ LARGEST_WEIGHED_BUFFER) }
    {
        self.buffer as usize
    }

    /// The measure of the buffer's load.
    pub fn measure(self) -> Measure
        ensures { result ≡ self.measure }
    {
        self.measure
    }

    /// The largest number of rows of a leaf.
    pub fn leaf(self) -> usize
        ensures value { result ≡ self.leaf }
        ensures range { (SMALLEST_LEAF ≤ result) × (result ≤ LARGEST_LEAF) }
    {
        self.leaf as usize
    }
}
