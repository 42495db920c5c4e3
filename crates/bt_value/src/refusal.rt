//! Why a call is refused.
ghost use Rattle.std.specs.Prelude.{◌≡◌, ◌∷◌, [], Some};
ghost use Rattle.bt_value.specs.Refusals.{lowest_from};

use std::alloc::{AllocError, AllocFailed};

/// Why a call is refused: a number and a name that are part of the script language and, for some, the item at fault. Items are
/// counted from 1. If several refusals apply, a call returns the one with the smallest number and, of equal numbers, the smallest item.
#[derive(Clone, Copy, Debug, PartialEq, Eq)]
pub enum Refusal {
    /// Not a command of the script language.
    Syntax,
    /// A block without its closing line.
    Unfinished,
    /// There is no table yet.
    NoTable,
    /// There is a table already.
    TableExists,
    /// A number of columns or of key columns out of range, a name that occurs twice, or a header that differs.
    BadSchema,
    /// A field that is not a value of its column, or an unknown operation.
    BadField(u64),
    /// A wrong number of fields.
    BadLength(u64),
    /// No tree, or no index, has this name.
    NoSuchTree,
    /// A tree already has this name.
    NameTaken,
    /// Over a limit of messages, columns of an index or indexes, or a group of more than 2^64 - 1 rows.
    TooMany,
    /// The index is building or, for a load, some index is.
    Building,
    /// A building step of an index that is complete.
    AlreadyComplete,
    /// A load into a table whose primary tree is not an empty leaf.
    NotEmpty,
    /// The first record with the same key as an earlier record.
    DuplicateKey(u64),
    /// An unknown column, a key column in an operation, a column that the index does not hold, or a number of group columns out of
    /// range.
    NoSuchColumn,
    /// An arithmetic operation, or a sum, of a column that is not int.
    NotInt,
    /// A request for memory was refused.
    OutOfMemory,
    /// The table lost subtrees when a request for memory was refused.
    Failed,
    /// A number of workers, a depth or a grain out of range.
    BadCrew,
    /// A fanout, buffer or leaf out of range.
    BadShape,
}

impl Refusal {
    ghost use Rattle.bt_value.specs.Refusals.{item_of, name_of, number_of};

    /// The number, 1 to 20.
    pub fn number(&self) -> u8
        ensures { result ≡ number_of self.now }
    {
        match self {
            Refusal::Syntax => 1,
            Refusal::Unfinished => 2,
            Refusal::NoTable => 3,
            Refusal::TableExists => 4,
            Refusal::BadSchema => 5,
            Refusal::BadField(_) => 6,
            Refusal::BadLength(_) => 7,
            Refusal::NoSuchTree => 8,
            Refusal::NameTaken => 9,
            Refusal::TooMany => 10,
            Refusal::Building => 11,
            Refusal::AlreadyComplete => 12,
            Refusal::NotEmpty => 13,
            Refusal::DuplicateKey(_) => 14,
            Refusal::NoSuchColumn => 15,
            Refusal::NotInt => 16,
            Refusal::OutOfMemory => 17,
            Refusal::Failed => 18,
            Refusal::BadCrew => 19,
            Refusal::BadShape => 20,
        }
    }

    /// The name, as replies print it.
    pub fn name(&self) -> &'static str
        ensures { result.now ≡ name_of self.now }
    {
        match self {
            Refusal::Syntax => "Syntax",
            Refusal::Unfinished => "Unfinished",
            Refusal::NoTable => "NoTable",
            Refusal::TableExists => "TableExists",
            Refusal::BadSchema => "BadSchema",
            Refusal::BadField(_) => "BadField",
            Refusal::BadLength(_) => "BadLength",
            Refusal::NoSuchTree => "NoSuchTree",
            Refusal::NameTaken => "NameTaken",
            Refusal::TooMany => "TooMany",
            Refusal::Building => "Building",
            Refusal::AlreadyComplete => "AlreadyComplete",
            Refusal::NotEmpty => "NotEmpty",
            Refusal::DuplicateKey(_) => "DuplicateKey",
            Refusal::NoSuchColumn => "NoSuchColumn",
            Refusal::NotInt => "NotInt",
            Refusal::OutOfMemory => "OutOfMemory",
            Refusal::Failed => "Failed",
            Refusal::BadCrew => "BadCrew",
            Refusal::BadShape => "BadShape",
        }
    }

    /// The item at fault, counted from 1, if the refusal names one.
    pub fn item(&self) -> Option<u64>
        ensures { result ≡ item_of self.now }
    {
        match self {
            Refusal::BadField(item) | Refusal::BadLength(item) | Refusal::DuplicateKey(item) => {
                Some(*item)
            }
            _ => None,
        }
    }
}

impl Refusal {
    ghost use Rattle.bt_value.specs.Refusals.{is_lower, lower};

    // Whether this number is smaller than the other or, if the numbers are equal, this item.
    fn is_before(&self, other: &Refusal) -> bool
        ensures { result ≡ is_lower self.now other.now }
    {
        let (number, other_number) = (self.number(), other.number());
        if number != other_number {
            return number < other_number;
        }
        self.item().unwrap_or(0) < other.item().unwrap_or(0)
    }

    /// The refusal that is returned if both apply: the one with the smaller number or, of equal numbers, with the smaller item.
    pub fn lower(self, other: Refusal) -> Refusal
        ensures { result ≡ lower self other }
    {
        if other.is_before(&self) { other } else { self }
    }
}

/// The smaller of a refusal found before, if there was one, and one more.
pub fn lowest_with(found: Option<Refusal>, refusal: Refusal) -> Refusal
    ensures { lowest_from found (refusal ∷ []) ≡ Some result }
{
    match found {
        Some(found) => found.lower(refusal),
        None => refusal,
    }
}

impl From<AllocError> for Refusal {
    ghost use Rattle.std.specs.Prelude.{◌≡◌};
    ghost use Rattle.bt_value.specs.declared.refusal.Refusal.TheVariants.{OutOfMemory};

    ghost from_gives = { λ _ e. e ≡ OutOfMemory };

    fn from(_e: AllocError) -> Refusal {
        Refusal::OutOfMemory
    }
}

impl<T: Drop> From<AllocFailed<T>> for Refusal {
    ghost use Rattle.std.specs.Prelude.{◌≡◌};
    ghost use Rattle.bt_value.specs.declared.refusal.Refusal.TheVariants.{OutOfMemory};

    ghost from_gives = { λ _ e. e ≡ OutOfMemory };

    fn from(_e: AllocFailed<T>) -> Refusal {
        Refusal::OutOfMemory
    }
}
