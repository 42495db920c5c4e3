//! The size of flushes, and their number.
ghost use Rattle.std.specs.Prelude.{List};
ghost use Rattle.bt_message.specs.Meanings.{meaning_of};
ghost use Rattle.bt_message.specs.Weights.{weigh_of};
ghost use Rattle.bt_message.specs.declared.message.Message.{Message};
ghost use Rattle.bt_form.specs.Fits.{HasShape};
ghost use Rattle.bt_form.specs.Flushes.{Child, Flush};
ghost use Rattle.bt_form.specs.Messages.{Messages};
ghost use Rattle.bt_form.specs.Trees.{Shape, Tree};
ghost use Rattle.bt_laws.specs.FlushSizes.{FlushesAreFew, FlushesAreFewInAll, FlushesAreLarge};

use bt_messages::Merge;

/// Each flush of a child is large, so packets lead to few flushes (Bender et al., ";login:" 40(5), 2015). The number of flushes times
/// (buffer + 1), divided by the fanout, is at most the number of messages that came times the levels below the root.
///
/// The clauses are about load, so they are true of both measures of a buffer: the load of messages is their number, or their weight.
pub fn flush_sizes<V: Merge>()
    ensures large { (shape : Shape) (flush : Flush V (Message V V.Delta)) (children : List (Child V (Message V V.Delta))) → FlushesAreLarge (meaning_of V.terms) shape flush children }
    ensures few { (shape : Shape) (tree : Tree V (Message V V.Delta)) (packets : List (Messages (Message V V.Delta))) → HasShape (weigh_of V.terms) shape tree → FlushesAreFew (meaning_of V.terms) shape tree packets }
    ensures in_all { (shape : Shape) (tree : Tree V (Message V V.Delta)) (packets : List (Messages (Message V V.Delta))) → HasShape (weigh_of V.terms) shape tree → FlushesAreFewInAll (meaning_of V.terms) shape tree packets }
{}
