//! What follows from the definitions of frames and files. The functions do nothing.
ghost use Rattle.bt_journal.specs.Damage.{DamageIsNoticed, DamageIsTold, SaltsAreNew, SeedsTellFramesApart};

/// A byte of a payload that was changed is noticed, whichever byte it is, and the file is refused if a whole frame follows.
pub fn damage()
    ensures noticed { DamageIsNoticed }
    ensures told { DamageIsTold }
{}

/// A frame of an older file is no frame at the same place of the file that took its place.
pub fn salts()
    ensures apart { SeedsTellFramesApart }
    ensures new { SaltsAreNew }
{}
