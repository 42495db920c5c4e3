//! Who works on a script: the caller alone, or a crew.
ghost use Rattle.std.specs.Prelude.{◌≡◌, ◌≢◌, drop, fold, IfErr, IfOk, IsErrOf, None};
ghost use Rattle.bt_value.specs.Answers.{Answers};
ghost use Rattle.bt_value.specs.Results.{map_ok};
ghost use Rattle.bt_script.specs.Commands.{Finds, NextPast, commands};
ghost use Rattle.bt_table.specs.Calls.{tree_named};
ghost use Rattle.bt_view.specs.Groups as groups;
ghost use Rattle.bt_view.specs.Ranges as ranges;
ghost use Rattle.bt_shell.specs.Replies.{row_line};
ghost use Rattle.bt_shell.specs.inside.Lines.{with_line};

use crate::replies::Lines;
use bt_gang::{Context, Crew, Gate, NoGate};
use bt_script::{Bounds, Parsed, SumsForm, parse_by_crew, parse_command};
use bt_table::{Alone, Table, Workforce};
use bt_value::{Refusal, Sequence, Text};
use bt_view::{Sum, has_few_rows, scan, scan_alone, sums, sums_alone};
use std::alloc::{AllocError, Global};
use std::sync::Wait;
use std::thread::Threads;

/// Who works on a script: a [`Workforce`] that also parses and reads. The type of the visitor of the rows is named here, because a crew passes it to threads, and inside
/// an `impl` it is not known that a thread may have the value of a type parameter. The calls have the same clauses for either.
pub trait ScriptWorkforce<T>: Workforce<T> {
    /// The command at a place of a script, as returned by [`parse_command`].
    fn parse<'a>(
        &self,
        rt: &T,
        alloc: Global,
        script: &'a [u8],
        at: usize,
    ) -> Result<Parsed<'a>, AllocError>
        requires ready { Self.accepts self.now }
        ensures found { IfOk result (λ parsed. Finds parsed script.now (commands (drop at script.now))) }
        ensures past { IfOk result (λ parsed. NextPast parsed at script.now) };

    /// Appends the rows of a tree between two bounds to some lines.
    fn scan(
        &self,
        rt: &T,
        alloc: Global,
        table: &Table,
        name: &Text,
        bounds: &Bounds<'_>,
        lines: Lines,
    ) -> Result<Lines, Refusal>
        requires ready { Self.accepts self.now }
        ensures answer { Answers (map_ok (fold (with_line (λ row. row_line row.1)) lines) (ranges.scan_with_keys table.now name.now bounds.now.from bounds.now.to)) result }
        ensures certain { IfErr (tree_named table.now name.now) (IsErrOf result) }
        ensures unbounded { bounds.now.from ≡ None → bounds.now.to ≡ None → IfErr (ranges.scan table.now name.now None None) (IsErrOf result) };

    /// The groups of the rows of a tree between two bounds, with the sum of a column.
    fn sums(
        &self,
        rt: &T,
        alloc: Global,
        table: &Table,
        form: &SumsForm<'_>,
    ) -> Result<Sequence<Sum>, Refusal>
        requires ready { Self.accepts self.now }
        ensures answer { Answers (groups.sums table.now form.now.tree form.now.columns form.now.column form.now.bounds.from form.now.bounds.to) result }
        ensures certain { IfErr (tree_named table.now form.now.tree) (IsErrOf result) }
        ensures unbounded { form.now.bounds.from ≡ None → form.now.bounds.to ≡ None → IfErr (groups.sums table.now form.now.tree form.now.columns form.now.column None None) (λ e. e ≢ Refusal.TooMany → IsErrOf result e) };
}

impl<T> ScriptWorkforce<T> for Alone {
    fn parse<'a>(
        &self,
        _rt: &T,
        alloc: Global,
        script: &'a [u8],
        at: usize,
    ) -> Result<Parsed<'a>, AllocError> {
        parse_command(alloc, script, at)
    }

    fn scan(
        &self,
        _rt: &T,
        alloc: Global,
        table: &Table,
        name: &Text,
        bounds: &Bounds<'_>,
        lines: Lines,
    ) -> Result<Lines, Refusal> {
        let Bounds { from, to } = bounds;
        scan_alone(alloc, table, name, from.as_ref(), to.as_ref(), lines)
    }

    fn sums(
        &self,
        _rt: &T,
        alloc: Global,
        table: &Table,
        form: &SumsForm<'_>,
    ) -> Result<Sequence<Sum>, Refusal> {
        let Bounds { from, to } = &form.bounds;
        sums_alone(
            alloc,
            table,
            &form.tree,
            form.columns,
            &form.column,
            from.as_ref(),
            to.as_ref(),
        )
    }
}

impl<T: Threads + Wait + Sync> ScriptWorkforce<T> for Crew<NoGate> {
    fn parse<'a>(
        &self,
        rt: &T,
        alloc: Global,
        script: &'a [u8],
        at: usize,
    ) -> Result<Parsed<'a>, AllocError> {
        let context = Context {
            rt,
            alloc,
            crew: self,
        };
        parse_by_crew(&context, script, at)
    }

    fn scan(
        &self,
        rt: &T,
        alloc: Global,
        table: &Table,
        name: &Text,
        bounds: &Bounds<'_>,
        lines: Lines,
    ) -> Result<Lines, Refusal> {
        let Bounds { from, to } = bounds;
        if has_few_rows(table, name) {
            return scan_alone(alloc, table, name, from.as_ref(), to.as_ref(), lines);
        }
        let context = Context {
            rt,
            alloc,
            crew: self,
        };
        scan(&context, table, name, from.as_ref(), to.as_ref(), lines)
    }

    fn sums(
        &self,
        rt: &T,
        alloc: Global,
        table: &Table,
        form: &SumsForm<'_>,
    ) -> Result<Sequence<Sum>, Refusal> {
        let Bounds { from, to } = &form.bounds;
        if has_few_rows(table, &form.tree) {
            return sums_alone(
                alloc,
                table,
                &form.tree,
                form.columns,
                &form.column,
                from.as_ref(),
                to.as_ref(),
            );
        }
        let context = Context {
            rt,
            alloc,
            crew: self,
        };
        sums(
            &context,
            table,
            &form.tree,
            form.columns,
            &form.column,
            from.as_ref(),
            to.as_ref(),
        )
    }
}

impl<T: Threads + Wait + Sync> ScriptWorkforce<T> for Crew<&(dyn Gate + Sync)> {
    fn parse<'a>(
        &self,
        rt: &T,
        alloc: Global,
        script: &'a [u8],
        at: usize,
    ) -> Result<Parsed<'a>, AllocError> {
        let context = Context {
            rt,
            alloc,
            crew: self,
        };
        parse_by_crew(&context, script, at)
    }

    fn scan(
        &self,
        rt: &T,
        alloc: Global,
        table: &Table,
        name: &Text,
        bounds: &Bounds<'_>,
        lines: Lines,
    ) -> Result<Lines, Refusal> {
        let Bounds { from, to } = bounds;
        let context = Context {
            rt,
            alloc,
            crew: self,
        };
        scan(&context, table, name, from.as_ref(), to.as_ref(), lines)
    }

    fn sums(
        &self,
        rt: &T,
        alloc: Global,
        table: &Table,
        form: &SumsForm<'_>,
    ) -> Result<Sequence<Sum>, Refusal> {
        let Bounds { from, to } = &form.bounds;
        let context = Context {
            rt,
            alloc,
            crew: self,
        };
        sums(
            &context,
            table,
            &form.tree,
            form.columns,
            &form.column,
            from.as_ref(),
            to.as_ref(),
        )
    }
}
