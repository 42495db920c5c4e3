//! A reader or writer that records whether a call on it failed, how many bytes passed, and whether all of them were flushed.
ghost use Rattle.std.specs.Prelude.{◌≡◌, ◌&&◌, ◌||◌, length, false, is_err};
ghost use Rattle.std.specs.Io.{ReadsAtMost, WritesAtMost};
ghost use Rattle.std.specs.Io.KnownBytes.{Keeps, ReadConsumes, WriteAppends};
ghost use Rattle.bt_script.specs.Streams.{CountsPassed, count_of, has_failed, has_unflushed, source_of, took_some, write_failed};

use std::io;
use std::io::{Read, Write};

/// A reader or writer that passes its calls on. It records whether one of them has failed, counts its bytes, and records whether a
/// writer took some bytes that no flush followed.
#[derive(Drop)]
pub struct Counted<T> {
    inner: T,
    failed: bool,
    unflushed: bool,
    count: u64,
}

impl<T> Counted<T> {
    /// The stream before any call: no call has failed, no byte is counted, and none waits for a flush.
    pub fn new(inner: T) -> Self
        ensures inner { source_of result ≡ inner }
        ensures failed { has_failed result ≡ false }
        ensures unflushed { has_unflushed result ≡ false }
        ensures count { count_of result ≡ 0 }
    {
        Counted {
            inner,
            failed: false,
            unflushed: false,
            count: 0,
        }
    }

    /// Whether a call has failed: it returned an error, or it was to write some bytes and took none.
    pub fn has_failed(&self) -> bool
        ensures { result ≡ has_failed self.now }
    {
        self.failed
    }

    /// Whether bytes were written since the last flush that did not fail.
    pub fn has_unflushed(&self) -> bool
        ensures { result ≡ has_unflushed self.now }
    {
        self.unflushed
    }

    /// The inner reader or writer.
    pub fn into_inner(self) -> T
        ensures { result ≡ source_of self }
    {
        let Counted { inner, .. } = self;
        inner
    }

    /// The number of bytes that were read from it or written to it. The count stops at the largest `u64`.
    pub fn count(&self) -> u64
        ensures { result ≡ count_of self.now }
    {
        self.count
    }
}

impl<R: Read> Read for Counted<R> {
    ghost remaining = { λ c. R.remaining (source_of c) };

    fn read(&mut self, buf: &mut [u8]) -> io::Result<usize>
        ensures bound { ReadsAtMost result buf.new }
        ensures bytes { ReadConsumes (R.remaining (source_of self.old)) (R.remaining (source_of self.new)) result buf.new }
        ensures failed { has_failed self.new ≡ (has_failed self.old || is_err result) }
        ensures unflushed { has_unflushed self.new ≡ has_unflushed self.old }
        ensures count { CountsPassed self.old self.new result }
    {
        let result = self.inner.read(buf);
        match &result {
            Ok(given) => self.count = self.count.saturating_add(*given as u64),
            Err(_) => self.failed = true,
        }
        result
    }
}

impl<W: Write> Write for Counted<W> {
    ghost contents = { λ c. W.contents (source_of c) };

    fn write(&mut self, buf: &[u8]) -> io::Result<usize>
        ensures bound { WritesAtMost result buf.now }
        ensures bytes { WriteAppends (W.contents (source_of self.old)) (W.contents (source_of self.new)) result buf.now }
        ensures failed { has_failed self.new ≡ (has_failed self.old || write_failed result (length buf.now)) }
        ensures unflushed { has_unflushed self.new ≡ (has_unflushed self.old || took_some result) }
        ensures count { CountsPassed self.old self.new result }
    {
        let result = self.inner.write(buf);
        let failed = match &result {
            Ok(taken) => {
                self.count = self.count.saturating_add(*taken as u64);
                self.unflushed = self.unflushed || *taken > 0;
                *taken == 0 && !buf.is_empty()
            }
            Err(_) => true,
        };
        if failed {
            self.failed = true;
        }
        result
    }

    fn flush(&mut self) -> io::Result<()>
        ensures bytes { Keeps (W.contents (source_of self.old)) (W.contents (source_of self.new)) }
        ensures failed { has_failed self.new ≡ (has_failed self.old || is_err result) }
        ensures unflushed { has_unflushed self.new ≡ (has_unflushed self.old && is_err result) }
        ensures count { count_of self.new ≡ count_of self.old }
    {
        let result = self.inner.flush();
        match &result {
            Ok(()) => self.unflushed = false,
            Err(_) => self.failed = true,
        }
        result
    }
}
