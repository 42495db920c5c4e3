//! Combining two results.
ghost use Rattle.std.specs.Prelude.{◌≡◌, Ok, Result, IfOk};
ghost use Rattle.bt_value.specs.Answers.{Answers};
ghost use Rattle.bt_value.specs.Results as results;
ghost use Rattle.bt_value.specs.declared.refusal.Refusal.{Refusal as refusal};

use bt_value::Refusal;

/// Both values, or the smaller of the refusals. If either call runs out of memory, the refusal is `OutOfMemory`, because the value
/// that was not read might have been refused too.
pub fn both_read<S: Drop, T: Drop>(
    first: Result<S, Refusal>,
    second: Result<T, Refusal>,
) -> Result<(S, T), Refusal>
    ensures answer { (one : Result S refusal) → (other : Result T refusal) → Answers one first → Answers other second → Answers (results.both_read one other) result }
    ensures both { IfOk first (λ value. IfOk second (λ other. result ≡ Ok (value, other))) }
{
    match first {
        Ok(value) => match second {
            Ok(other) => Ok((value, other)),
            Err(refusal) => {
                drop(value);
                Err(refusal)
            }
        },
        Err(Refusal::OutOfMemory) => {
            drop(second);
            Err(Refusal::OutOfMemory)
        }
        Err(refusal) => match second {
            Ok(other) => {
                drop(other);
                Err(refusal)
            }
            Err(Refusal::OutOfMemory) => Err(Refusal::OutOfMemory),
            Err(other) => Err(refusal.lower(other)),
        },
    }
}
