ghost use Rattle.std.specs.Prelude.{◌≡◌, ◌<◌, ◌≤◌, true, false, vec_len, IfOk};
ghost use Rattle.io_ports.specs.HeldPort.{IsReadAhead, ReadsOn};

use crate::counts::one_more;
use crate::memory_source::give;
use crate::reading::zeros;
use crate::{Bytes, Failed, Source};
use pci_command::{List, NoMemory};
use std::alloc::Global;
use std::marker::Model;
use std::mem::replace;

/// A source over bytes that were read before. It gives them all, and where the reading of them
/// failed, it fails at their end, at each call.
#[derive(Debug, Drop)]
pub struct HeldSource {
    bytes: Bytes,
    given: usize,
    fails: bool,
    faults: u64,
    /// Whether it gives its bytes up where it is asked to.
    gives: bool,
}

impl Model for HeldSource {
    ghost use Rattle.std.specs.Prelude.{◌≤◌, length, drop};
    ghost use Rattle.io_ports.specs.HeldPort.{HeldState};

    ghost Value = { HeldState };

    ghost view = { λ source. record {
      bytes = source.bytes;
      rest = drop source.given source.bytes;
      fails = source.fails;
      faults = source.faults;
      gives = source.gives;
    } };

    ghost invariant = { λ source. source.given ≤ length source.bytes };
}

impl HeldSource {
    /// A source of these bytes, which fails at their end or does not.
    pub fn new(bytes: Bytes, fails: bool) -> HeldSource
        ensures { result ≡ record {
          bytes = bytes;
          rest = bytes;
          fails = fails;
          faults = 0;
          gives = false;
        } }
    {
        HeldSource {
            bytes,
            given: 0,
            fails,
            faults: 0,
            gives: false,
        }
    }

    /// What another source gives, read at once: to its end, to its first fault, or to so many
    /// bytes.
    pub fn read_ahead<S: Source>(
        alloc: Global,
        source: &mut S,
        most: usize,
    ) -> Result<HeldSource, NoMemory>
        ensures { IfOk result (IsReadAhead (S.held source.old) (S.held source.new)
            (S.faults source.old) (S.faults source.new) most) }
    {
        let mut buffer = zeros(alloc)?;
        // room for all that may come, so that it never moves: what is not filled is not taken
        let mut bytes = Vec::with_capacity(alloc, most)?;
        'turns: while bytes.len() < most {
            match read_on(source, &mut buffer, &mut bytes, most)? {
                None => return Ok(HeldSource::new(List::from_vec(bytes), true)),
                Some(0) => return Ok(HeldSource::new(List::from_vec(bytes), false)),
                Some(_) => {}
            }
        }
        Ok(HeldSource::new(List::from_vec(bytes), false))
    }

    /// Has it give its bytes up where it is asked to: who needs them later can read them again.
    pub fn let_go(&mut self)
        ensures { self.new ≡ record self.old { gives = true } }
    {
        self.gives = true;
    }

    /// All its bytes, given or not. None where it gave them up.
    pub fn bytes(&self) -> &[u8]
        ensures { result.now ≡ self.now.bytes }
    {
        self.bytes.as_slice()
    }
}

impl Source for HeldSource {
    ghost use Rattle.std.specs.Prelude.{Some, true, [], ◌≡◌, ◌≤◌, ◌↔◌, min, length, take, IfOk};
    ghost use Rattle.std.specs.Prelude.{IsErr, OnOk, OnErr, IfSome, is_some, not, ◌&&◌};
    ghost use Rattle.std.specs.Io.{ReadsAtMost};
    ghost use Rattle.std.specs.Io.KnownBytes.{ReadConsumes};
    ghost use Rattle.io_ports.specs.Faults.{Rose};
    ghost use Rattle.io_ports.specs.HeldPort.{held_after};

    ghost held = { λ source. Some source.rest };

    ghost faults = { λ source. source.faults };

    ghost lends = { λ source. not source.fails && not source.gives };

    fn read(&mut self, buf: &mut [u8]) -> Result<usize, Failed>
        ensures bound { ReadsAtMost result buf.new }
        ensures bytes { ReadConsumes (Some self.old.rest) (Some self.new.rest) result buf.new }
        ensures counted { self.old.faults ≤ self.new.faults }
        ensures clean { OnOk result (self.new.faults ≡ self.old.faults) }
        ensures failed { OnErr result (Rose self.old.faults self.new.faults) }

        // Where the reading failed each call at the end fails. Each other call gives as much as it
        // can.
        ensures fails { IsErr result ↔ ((self.old.fails ≡ true) × (self.old.rest ≡ [])) }
        ensures full { IfOk result (λ n. n ≡ min (length buf.old) (length self.old.rest)) }
        ensures next { IfOk result (λ n. take n buf.new ≡ take n self.old.rest) }
        ensures after { self.new ≡ held_after self.old result }
    {
        let (_, rest) = self.bytes.as_slice().split_at(self.given);
        if self.fails && rest.is_empty() {
            self.faults = one_more(self.faults);
            return Err(Failed);
        }
        let count = give(rest, buf, rest.len().max(1));
        self.given += count;
        Ok(count)
    }

    fn lent(&self) -> Option<&[u8]>
        ensures lent { IfSome result (λ bytes. Some self.now.rest ≡ Some bytes.now) }
        // Where the reading failed it lends nothing, so that the fault is told at the end.
        ensures lends { is_some result ≡ not self.now.fails && not self.now.gives }
    {
        if self.fails || self.gives {
            return None;
        }
        let (_, rest) = self.bytes.as_slice().split_at(self.given);
        Some(rest)
    }

    fn end(&mut self)
        ensures ends { not self.old.fails && not self.old.gives ≡ true → Some self.new.rest ≡ Some [] }
        ensures clean { self.new.faults ≡ self.old.faults }
    {
        self.given = self.bytes.as_slice().len();
    }

    fn give_up(&mut self, alloc: Global) -> Option<Bytes> {
        if !self.gives || self.fails || self.given > 0 {
            return None;
        }
        let none = List::from_vec(Vec::new(alloc));
        Some(replace(&mut self.bytes, none))
    }
}

/// One read of the source, whose bytes are put behind the others, `most` in all, and their number;
/// none where it failed.
fn read_on<S: Source>(
    source: &mut S,
    buffer: &mut Vec<u8>,
    bytes: &mut Vec<u8>,
    most: usize,
) -> Result<Option<usize>, NoMemory>
    requires some { 0 < vec_len buffer.old }
    requires room { vec_len bytes.old < most }
    ensures kept { vec_len buffer.new ≡ vec_len buffer.old }
    ensures within { IfOk result (λ _. vec_len bytes.new ≤ most) }
    ensures piece { IfOk result (λ count. ReadsOn (S.held source.old) (S.held source.new)
        (S.faults source.old) (S.faults source.new) bytes.old.items bytes.new.items count) }
    ensures counted { S.faults source.old ≤ S.faults source.new }
{
    let size = buffer.len().min(most - bytes.len());
    let room = &mut buffer[..size];
    let Ok(count) = source.read(room) else {
        return Ok(None);
    };
    bytes.extend_from_slice(&room[..count])?;
    Ok(Some(count))
}
