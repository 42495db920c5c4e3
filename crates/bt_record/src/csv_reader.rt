//! Reading the records of a text with one reader of `csv`.
ghost use Rattle.std.specs.Prelude.{◌≡◌, ◌∷◌, ◌⊎◌, ℕ, List, [], drop, false, take, true, IfOk, OnErr, OnOk};
ghost use Rattle.csv.specs.Reading.{default_config, records};
ghost use Rattle.csv.specs.Records.{fields_of};
ghost use Rattle.bt_record.specs.Records.{has_mark as is_after_mark};

use crate::fields::Fields;
use csv::{ByteRecord, Reader, ReaderBuilder};
use std::alloc::{AllocError, Global};
use std::marker::Model;

/// A reader of `csv`, and the memory of one record, which all records share. It reads as `csv` does by default, but without a header, and
/// records may differ in length. A contract sees the fields of each record that is left.
///
/// It contains `csv`'s buffer of 8 KiB. For the record of a single line, [`RecordLine`](crate::RecordLine) takes less.
#[derive(Drop)]
pub struct CsvReader<'a> {
    reader: Reader<&'a [u8]>,
    record: ByteRecord,
}

impl<'a> Model for CsvReader<'a> {
    ghost use Rattle.std.specs.Prelude.{List, Some, ℕ};
    ghost use Rattle.bt_record.specs.inside.CsvReads.{ReadsEach, records_left};

    ghost Value = { List (List (List ℕ)) };

    ghost view = { λ a. records_left (λ text. Some text.now) a.reader };

    ghost invariant = { λ a. ReadsEach a.reader };
}

// Replaces fields with the first ones of a record that `csv` has read, at most this many.
#[tactic(auto, using(crate::proofs::CsvReads::take_least))]
fn copy_fields(fields: &mut Fields, record: &ByteRecord, most: usize) -> Result<(), AllocError>
    ensures { OnOk result (fields.new ≡ take most (fields_of record.now)) }
{
    fields.clear();
    for place in 0..record.len().min(most) {
        if let Some(field) = record.get(place) {
            fields.push(field)?;
        }
    }
    Ok(())
}

impl<'a> CsvReader<'a> {
    /// A reader of the records of a text.
    pub(crate) fn new(alloc: Global, text: &'a [u8]) -> Self
        requires { is_after_mark text.now ≡ false }
        ensures { result ≡ records default_config text.now }
    {
        let reader = ReaderBuilder::new()
            .has_headers(false)
            .flexible(true)
            .from_reader(alloc, text);
        CsvReader {
            reader,
            record: ByteRecord::new(alloc),
        }
    }

    /// Replaces fields with the first ones of the next record, at most this many, and passes over its other fields. Returns `false` if
    /// there is no record. After an `Err` the record was passed over, or no records are left.
    pub fn next(&mut self, fields: &mut Fields, most: usize) -> Result<bool, AllocError>
        ensures found { IfOk result (λ found. found ≡ true → (whole : List (List ℕ)) × (self.old ≡ whole ∷ self.new) × (fields.new ≡ take most whole)) }
        ensures none { IfOk result (λ found. found ≡ false → self.old ≡ []) }
        ensures err { OnErr result ((self.new ≡ []) ⊎ (self.new ≡ drop 1 self.old)) }
    {
        let Ok(found) = self.reader.read_byte_record(&mut self.record) else {
            // a text in memory is read without an error, so an allocation failed
            return Err(AllocError);
        };
        if found {
            copy_fields(fields, &self.record, most)?;
        }
        Ok(found)
    }
}
