//! Trees in portions, which threads can read side by side.
ghost use Rattle.std.specs.Prelude.{◌≡◌, ◌<◌, ◌∷◌, [], false, IfOk, IfSome, OnOk, None, fold, length, map};
ghost use Rattle.std.specs.Option.{option_copied, option_to_list};
ghost use Rattle.bt_message.specs.Effects.{effect_of};
ghost use Rattle.bt_form.specs.Fits.{IsInOrder};
ghost use Rattle.bt_form.specs.Parts.{AreRising};
ghost use Rattle.bt_form.specs.Portions as portions;
ghost use Rattle.bt_form.specs.Portions.{Divide, rows_of, value_in};
ghost use Rattle.bt_form.specs.Trees.{height};
ghost use Rattle.bt_form.specs.Walks.{is_leaf};
ghost use Rattle.bt_read.specs.inside.Openings.{children_left};

use crate::joint_lookup::tree_values;
use crate::lent_messages::{LentMessages, lies_before, with_messages};
use crate::lookup::tree_value;
use crate::row_limit::RowLimit;
use crate::visitor::{Copies, Visitor};
use crate::visits::{first_place, next_pivot, visit_portion};
use bt_form::{Node, NodeKind};
use bt_keycode::Key;
use bt_messages::Merge;
use std::alloc::{AllocError, Global};
use std::cmp::Ordering;
use std::marker::Model;

/// A part of a tree between two bounds: a subtree with the messages to it in the nodes above, all borrowed.
#[derive(Drop)]
pub struct Portion<'a, V: Merge> {
    pub(crate) node: &'a Node<V>,
    pub(crate) newer: LentMessages<'a, V>,
    pub(crate) low: Option<&'a Key>,
    pub(crate) high: Option<&'a Key>,
}

impl<'a, V: Merge> Model for Portion<'a, V> {
    ghost use Rattle.std.specs.Option.{option_copied};
    ghost use Rattle.bt_keycode.specs.Keys.{AllWithin, IsSorted};
    ghost use Rattle.bt_message.specs.declared.message.Message.{Message};
    ghost use Rattle.bt_form.specs.Fits.{IsInOrder};
    ghost use Rattle.bt_form.specs.Portions as portions;
    ghost use Rattle.bt_form.specs.Stored.{message_code, portion_code};

    ghost Value = { portions.Portion V (Message V V.Delta) };

    ghost coded = { portion_code V.code (message_code V.code V.Delta.code) };

    ghost view = { λ p. record { low = option_copied p.low; high = option_copied p.high; tree = p.node.now; newer = p.newer } };

    ghost invariant = { λ p. IsInOrder p.node.now × IsSorted p.newer × AllWithin (option_copied p.low) (option_copied p.high) p.newer };
}

impl<'a, V: Merge> Portion<'a, V> {
    /// A tree between two bounds. An absent bound doesn't limit.
    pub(crate) fn whole(
        alloc: Global,
        node: &'a Node<V>,
        from: Option<&'a Key>,
        to: Option<&'a Key>,
    ) -> Self
        requires { IsInOrder node.now }
        ensures { result ≡ portions.whole (option_copied from.entry) (option_copied to.entry) node.now }
    {
        Portion {
            node,
            newer: LentMessages::new(alloc),
            low: from,
            high: to,
        }
    }

    /// Whether a key lies between the bounds.
    pub fn owns(&self, key: &Key) -> bool
        ensures { result ≡ portions.owns key.now self.now }
    {
        let from = match self.low {
            Some(low) => key.compare(low) != Ordering::Less,
            None => true,
        };
        from && lies_before(key, self.high)
    }

    /// The value at a key, when all messages have had their effect.
    pub fn get(&self, alloc: Global, key: &Key) -> Result<Option<V>, AllocError>
        ensures { IfOk result (λ value. value ≡ value_in (effect_of V.terms.merged) key.now self.now) }
    {
        let old = tree_value(alloc, self.node, key)?;
        self.newer.effect_at(alloc, key, old)?.into_value(alloc)
    }

    /// The values at rising keys, when all messages have had their effect. Each node below is entered once, and the messages from
    /// above are read once.
    pub fn values<'k>(
        self,
        alloc: Global,
        keys: &'k [&'k Key],
    ) -> Result<Vec<Option<V>>, AllocError>
        requires rising { AreRising (map (λ k. k.now) keys.now) }
        ensures { IfOk result (λ values. values.items ≡ map (λ k. value_in (effect_of V.terms.merged) k.now self.entry) keys.now) }
    {
        let Portion {
            node,
            newer,
            low: _,
            high: _,
        } = self;
        let below = tree_values(alloc, node, keys)?;
        let mut newer = newer;
        let mut values = Vec::with_capacity(alloc, keys.len())?;
        let mut rest = keys;
        for old in below {
            let [key, others @ ..] = rest else {
                return Ok(values);
            };
            let held = newer.take_up_to(alloc, key, old)?;
            values.push(held.into_value(alloc)?)?;
            rest = others;
        }
        Ok(values)
    }

    // A copy of the portion. Nothing that it borrows is copied.
    fn again(&self, alloc: Global) -> Result<Portion<'a, V>, AllocError>
        ensures { IfOk result (λ copy. copy ≡ self.now) }
    {
        let newer = self.newer.again(alloc)?;
        Ok(Portion {
            node: self.node,
            newer,
            low: self.low,
            high: self.high,
        })
    }

    /// Copies of the rows between the bounds, when all messages have had their effect, in rising order.
    pub fn rows(&self, alloc: Global) -> Result<Vec<(Key, V)>, AllocError>
        ensures { IfOk result (λ rows. rows.items ≡ rows_of (effect_of V.terms.merged) self.now) }
    {
        let mut copies = Copies::new(alloc);
        self.again(alloc)?.visit(alloc, &mut copies)?;
        Ok(copies.into_rows())
    }

    /// Shows a visitor the rows between the bounds, when all messages have had their effect, in rising order.
    pub fn visit<S: Visitor<V>>(self, alloc: Global, visitor: &mut S) -> Result<(), AllocError>
        ensures { OnOk result (visitor.new ≡ fold S.visited visitor.old (rows_of (effect_of V.terms.merged) self.entry)) }
    {
        let mut limit = RowLimit::none();
        visit_portion(alloc, self, visitor, &mut limit)
    }
}

/// Splits a portion of an inner node into its first child between the bounds, with the messages to it from above, and the rest of
/// the portion after that child. Both are portions.
pub(crate) fn first_child<'a, V: Merge>(
    alloc: Global,
    portion: Portion<'a, V>,
) -> Result<(Portion<'a, V>, Option<Portion<'a, V>>), AllocError>
    requires { is_leaf portion.tree ≡ false }
    ensures parts { IfOk result (λ parts. Divide (effect_of V.terms.merged) (portion.entry ∷ []) (parts.0 ∷ option_to_list parts.1)) }
    ensures lower { IfOk result (λ parts. height parts.0.tree < height portion.entry.tree) }
    ensures fewer { IfOk result (λ parts. IfSome parts.1 (λ rest. (rest.tree ≡ portion.entry.tree) × (children_left rest < children_left portion.entry))) }
{
    let Portion {
        node,
        newer,
        low,
        high: to,
    } = portion;
    let NodeKind::Inner { children, bins } = node.kind() else {
        unreachable!()
    };
    let pivots = children.pivots();
    let place = first_place(pivots, low);
    let next = next_pivot(pivots, place, to);
    let high = next.or(to);
    let mut newer = newer;
    let above = newer.take_before(alloc, high)?;
    let messages = with_messages(alloc, bins.bin_between(place, low, high), above)?;
    let child = Portion {
        node: &children.nodes()[place],
        newer: messages,
        low,
        high,
    };
    if next.is_none() {
        return Ok((child, None));
    }
    let rest = Portion {
        node,
        newer,
        low: next,
        high: to,
    };
    Ok((child, Some(rest)))
}

// The children between the bounds of a portion, each with the messages to it from above. A leaf stays as it is.
fn child_portions<'a, V: Merge>(
    alloc: Global,
    portion: Portion<'a, V>,
) -> Result<Vec<Portion<'a, V>>, AllocError>
    ensures { IfOk result (λ parts. Divide (effect_of V.terms.merged) (portion.entry ∷ []) parts.items) }
{
    let mut parts = Vec::new(alloc);
    if let NodeKind::Leaf(_) = portion.node.kind() {
        parts.push(portion)?;
        return Ok(parts);
    }
    let mut rest = portion;
    loop {
        let (child, others) = first_child(alloc, rest)?;
        parts.push(child)?;
        let Some(others) = others else {
            return Ok(parts);
        };
        rest = others;
    }
}

// The portions one level below all of these, in order.
fn portions_below<'a, V: Merge>(
    alloc: Global,
    portions: Vec<Portion<'a, V>>,
) -> Result<Vec<Portion<'a, V>>, AllocError>
    ensures { IfOk result (λ parts. Divide (effect_of V.terms.merged) portions.entry.items parts.items) }
{
    let mut parts = Vec::new(alloc);
    for portion in portions {
        let mut below = child_portions(alloc, portion)?;
        parts.append(&mut below)?;
    }
    Ok(parts)
}

/// A tree in portions: the subtrees at a depth, and leaves at a smaller depth, that overlap the bounds.
pub(crate) fn portions_at<'a, V: Merge>(
    alloc: Global,
    node: &'a Node<V>,
    depth: usize,
    from: Option<&'a Key>,
    to: Option<&'a Key>,
) -> Result<Vec<Portion<'a, V>>, AllocError>
    requires { IsInOrder node.now }
    ensures { IfOk result (λ parts. Divide (effect_of V.terms.merged) (portions.whole (option_copied from.entry) (option_copied to.entry) node.now ∷ []) parts.items) }
{
    let mut parts = vec![in alloc; Portion::whole(alloc, node, from, to)]?;
    for _ in 0..depth {
        parts = portions_below(alloc, parts)?;
    }
    Ok(parts)
}
