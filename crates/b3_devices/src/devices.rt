//! Where a run reads and writes.

ghost use Rattle.std.specs.Prelude.{◌≡◌, ◌+◌, ◌-◌, ◌^◌, ◌<◌, ◌≤◌, IfOk, OnOk, vec_len};
ghost use Rattle.b3_io.specs.Contents.{input_name};
ghost use Rattle.b3_io.specs.Owing.{SaysOwing, on_out};
ghost use Rattle.b3_io.specs.Reading.{Answered, Asks, Hashes, key_answer};
ghost use Rattle.b3_io.specs.Scripts.Kind.{Key, Listed};
ghost use Rattle.b3_io.specs.Runs.{CanCount};
ghost use Rattle.b3_io.specs.Tasks.{Finds, IsFit, Says, counted, name_asked, report_of, request_report, task_script};
ghost use Rattle.b3_io.specs.Tasks.Task.{Find};

use crate::digester::Digester;
use b3_board::Gate;
use b3_io::{
    KeyRead, Limits, ListReader, Message, NoContent, Pool, Request, RunFault, Shelf, Sink,
    say_after, write_all,
};
use std::sync::Wait;
use std::thread::Threads;

/// A shelf and two sinks.
pub struct Devices<'s, 'o, 'e, S, O, E> {
    pub shelf: &'s mut S,
    pub out: &'o mut O,
    pub err: &'e mut E,
}

impl<'s, 'o, 'e, S, O, E> Drop for Devices<'s, 'o, 'e, S, O, E> {
    fn drop(self)
        ensures shelf { self.exit.0.now ≡ self.entry.shelf.now }
        ensures out { self.exit.1.0.now ≡ self.entry.out.now }
        ensures err { self.exit.1.1.0.now ≡ self.entry.err.now }
    {
        let Self {
            shelf: _,
            out: _,
            err: _,
        } = self;
    }
}

impl<'s, 'o, 'e, S: Shelf + Send + Sync, O: Sink, E: Sink> Devices<'s, 'o, 'e, S, O, E> {
    ghost use Rattle.b3_devices.specs.Devices.{loans, io_state_of};

    // The calls that read say of all three devices what their readers say of the shelf alone, since a run is told by
    // its I/O states.

    /// Hashes the content of a name, and answers whether it can be read, or why not.
    pub fn hash<R: Threads + Wait + Sync, G: Gate + Sync>(
        &mut self,
        pool: &Pool<'_, R, G>,
        digester: &mut Digester,
        name: &str,
        limits: Limits,
    ) -> Result<Result<(), NoContent>, RunFault>
        requires countable { CanCount (io_state_of S.Shelf O.Sink E.Sink self.old) 1 }
        requires some_turns { 0 < limits.turns }
        requires turns { limits.turns ≤ 2 ^ 40 }
        ensures hashed { Hashes digester.old.range limits name.now (io_state_of S.Shelf O.Sink E.Sink self.old)
            (io_state_of S.Shelf O.Sink E.Sink self.new) digester.new.digest.items result }
        ensures range { digester.new.range ≡ digester.old.range }
        ensures unsaid { self.new.out.now ≡ self.old.out.now }
        ensures loans { loans self.new ≡ loans self.old }
    {
        digester.hash_name(pool, self.shelf, name, limits)
    }

    /// What is to be said of a name that is asked for: it is hashed, and its digest, or why there is none, told.
    pub fn message_of<R: Threads + Wait + Sync, G: Gate + Sync>(
        &mut self,
        pool: &Pool<'_, R, G>,
        digester: &mut Digester,
        request: &Request<'_>,
        limits: Limits,
    ) -> Result<Message, RunFault>
        requires fit { IsFit digester.old.range.length request.now }
        requires countable { CanCount (io_state_of S.Shelf O.Sink E.Sink self.old) 1 }
        requires some_turns { 0 < limits.turns }
        requires turns { limits.turns ≤ 2 ^ 40 }
        ensures finds { Finds limits (task_script digester.old.range (Find (name_asked request.now) (request_report request.now)))
            (io_state_of S.Shelf O.Sink E.Sink self.old) (io_state_of S.Shelf O.Sink E.Sink self.new) result }
        ensures one { IfOk result (λ message. counted message.tally ≤ 2) }
        ensures shelf_count { S.failures self.new.shelf.now ≤ S.failures self.old.shelf.now + 1 }
        ensures unsaid { self.new.out.now ≡ self.old.out.now }
        ensures loans { loans self.new ≡ loans self.old }
        ensures range { digester.new.range ≡ digester.old.range }
    {
        let whole = self.hash(pool, digester, request.name(), limits)?;
        let digest = match whole {
            Ok(()) => Ok(digester.digest()),
            Err(why) => Err(why),
        };
        Ok(request.message(pool.alloc, digest)?)
    }

    /// Reads the key, or answers why it cannot be read.
    pub fn read_key(&mut self) -> Result<KeyRead, NoContent>
        requires { CanCount (io_state_of S.Shelf O.Sink E.Sink self.old) 1 }
        ensures answered { Answered Key input_name (key_answer result) (io_state_of S.Shelf O.Sink E.Sink self.old)
            (io_state_of S.Shelf O.Sink E.Sink self.new) }
        ensures loans { loans self.new ≡ loans self.old }
    {
        KeyRead::read(self.shelf)
    }

    /// Reads a list, and answers whether it can be read, or why not.
    pub fn read_list(
        &mut self,
        reader: &mut ListReader,
        name: &str,
        limits: Limits,
    ) -> Result<Result<(), NoContent>, RunFault>
        requires countable { CanCount (io_state_of S.Shelf O.Sink E.Sink self.old) 1 }
        requires turns { 0 < limits.turns }
        ensures asked { Asks Listed limits name.now (io_state_of S.Shelf O.Sink E.Sink self.old)
            (io_state_of S.Shelf O.Sink E.Sink self.new) reader.new.text.items result }
        ensures largest { OnOk result (vec_len reader.new.text ≤ limits.largest) }
        ensures loans { loans self.new ≡ loans self.old }
    {
        reader.read(self.shelf, name, limits)
    }

    /// Writes a report to the two sinks.
    pub fn say(&mut self, message: &Message) -> Result<(), RunFault>
        requires { CanCount (io_state_of S.Shelf O.Sink E.Sink self.old) 0 }
        ensures said { Says (report_of message.now) (io_state_of S.Shelf O.Sink E.Sink self.old)
            (io_state_of S.Shelf O.Sink E.Sink self.new) result }
        ensures loans { loans self.new ≡ loans self.old }
    {
        write_all(self.out, message.out.as_slice())?;
        write_all(self.err, message.err.as_slice())?;
        Ok(())
    }

    /// Says a report after lines for `out` that are still to be written. Where more is said soon, its own lines
    /// are among them.
    pub fn say_after(
        &mut self,
        lines: &mut Vec<u8>,
        message: &Message,
        is_more_soon: bool,
    ) -> Result<(), RunFault>
        requires { CanCount (io_state_of S.Shelf O.Sink E.Sink self.old) 0 }
        ensures said { SaysOwing (report_of message.now) (io_state_of S.Shelf O.Sink E.Sink self.old)
            (io_state_of S.Shelf O.Sink E.Sink self.new) lines.old.items lines.new.items result }
        ensures loans { loans self.new ≡ loans self.old }
    {
        say_after(
            &*self.shelf,
            self.out,
            self.err,
            lines,
            message,
            is_more_soon,
        )
    }

    /// Writes these lines to `out`.
    pub fn write_lines(&mut self, lines: &[u8]) -> Result<(), RunFault>
        requires { CanCount (io_state_of S.Shelf O.Sink E.Sink self.old) 0 }
        ensures said { Says (on_out lines.now) (io_state_of S.Shelf O.Sink E.Sink self.old)
            (io_state_of S.Shelf O.Sink E.Sink self.new) result }
        ensures loans { loans self.new ≡ loans self.old }
    {
        write_all(self.out, lines)?;
        Ok(())
    }
}
