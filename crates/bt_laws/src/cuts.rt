//! Scripts that are cut off at the end.
ghost use Rattle.std.specs.Prelude.{◌≡◌, List, take, true, ℕ};
ghost use Rattle.bt_script.specs.Commands.{commands};
ghost use Rattle.bt_shell.specs.Runs.{ends_with_line};
ghost use Rattle.bt_laws.specs.Cuts.{AreFirstAndOneMore, AreFirstAndOneRefused};

/// The commands of the first n bytes of a script, for each n.
///
/// If the cut is within a line, the command of that line may become another one: `get 12` may become `get 1`. If a line ends at the cut, a command whose block
/// is cut off is refused and changes no table.
pub fn cut_script()
    ensures bytes { (script : List ℕ) (n : ℕ) → AreFirstAndOneMore (commands (take n script)) (commands script) }
    ensures lines { (script : List ℕ) (n : ℕ) → ends_with_line (take n script) ≡ true → AreFirstAndOneRefused (commands (take n script)) (commands script) }
{}
