// The bytes of an input, taken a piece at a time, and given up behind each thing that was read.
ghost use Rattle.std.specs.Prelude.{◌≡◌, ◌≤◌, ◌<◌, ◌+◌, ◌-◌, ◌^◌, ◌↔◌, length, take, drop, vec_len, true};
ghost use Rattle.std.specs.Prelude.{IfOk, OnOk, OnErr};
ghost use Rattle.std.specs.Io.KnownBytes.{ReadConsumes};
ghost use Rattle.eq_ports.specs.Causes.{HasCause};
ghost use Rattle.term_input.specs.Streams.{nothing_held, taken_count, MayTake, Takes, IsTakingCount};

use crate::source_state::SourceState;
use eq_base::NoMemory;
use eq_ports::{Source, new_piece, read_some};
use std::alloc::Global;
use std::marker::Model;

/// The bytes that were taken of an input and not given up.
#[derive(Drop)]
pub struct Stream {
    // Those before `start` were given up.
    bytes: Vec<u8>,
    start: usize,
    place: u64,
    limit: u64,
    state: SourceState,
    piece: Vec<u8>,
}

impl Model for Stream {
    ghost use Rattle.std.specs.Prelude.{◌+◌, ◌<◌, ◌≤◌, ◌^◌, drop, vec_len};
    ghost use Rattle.term_input.specs.Streams.{Held};

    ghost Value = { Held };

    ghost view = { λ s. record {
      bytes = drop s.start s.bytes.items;
      place = s.place;
      limit = s.limit;
      state = s.state;
    } };

    ghost invariant = { λ s. (s.start ≤ vec_len s.bytes) × (0 < vec_len s.piece)
        × (s.place + vec_len s.bytes ≤ s.start + (s.limit + 1)) × (s.limit ≤ 2 ^ 40) };
}

/// Drops the first bytes.
fn drop_front(bytes: &mut Vec<u8>, count: usize)
    requires { count ≤ vec_len bytes.old }
    ensures { bytes.new.items ≡ drop count bytes.old.items }
{
    let rest = bytes.len() - count;
    bytes.copy_within(count.., 0);
    bytes.truncate(rest);
}

impl Stream {
    /// Nothing is taken yet. Bytes up to the limit are read, and one byte more is taken to know whether there
    /// is one.
    pub fn new(alloc: Global, limit: u64) -> Result<Stream, NoMemory>
        requires { limit ≤ 2 ^ 40 }
        ensures { IfOk result (λ stream. stream ≡ nothing_held limit) }
    {
        let piece = new_piece(alloc)?;
        Ok(Stream {
            bytes: Vec::new(alloc),
            start: 0,
            place: 0,
            limit,
            state: SourceState::Open,
            piece,
        })
    }

    /// The bytes that are held.
    pub fn bytes(&self) -> &[u8]
        ensures { result.now ≡ self.now.bytes }
    {
        &self.bytes[self.start..]
    }

    /// Those of the bytes that are held that are not behind the limit.
    pub fn readable(&self) -> &[u8]
        ensures { result.now ≡ take (self.now.limit - self.now.place) self.now.bytes }
    {
        let bytes = self.bytes();
        let room = self.limit.saturating_sub(self.place) as usize;
        &bytes[..bytes.len().min(room)]
    }

    /// The place in the input of the first byte that is held.
    pub fn place(&self) -> u64
        ensures place { result ≡ self.now.place }
        ensures within { result ≤ 2 ^ 40 + 1 }
    {
        self.place
    }

    /// What is known of the source.
    pub fn state(&self) -> SourceState
        ensures { result ≡ self.now.state }
    {
        self.state
    }

    /// How many bytes were taken.
    pub fn taken_count(&self) -> u64
        ensures count { result ≡ taken_count self.now }
        ensures within { result ≤ self.now.limit + 1 }
    {
        self.place + (self.bytes.len() - self.start) as u64
    }

    /// Whether a read may be made.
    pub fn may_take(&self) -> bool
        ensures { (result ≡ true) ↔ MayTake self.now }
    {
        matches!(self.state, SourceState::Open) && self.taken_count() <= self.limit
    }

    /// Takes what one read of the source gives. Where the source has ended, a read has failed or a byte behind
    /// the limit was taken, nothing is read any more.
    ///
    /// # Errors
    ///
    /// Out of memory: what the read gave is lost.
    pub fn take_more<S: Source>(&mut self, source: &mut S) -> Result<(), NoMemory>
        ensures takes { OnOk result (Takes (S.left source.old) (S.left source.new) self.old self.new) }
        ensures err { OnErr result (self.new ≡ self.old) }
        ensures count { IsTakingCount (S.faults source.old) (S.faults source.new) self.old self.new }
        ensures through { S.through source.new ≡ S.through source.old }
    {
        if !self.may_take() {
            return Ok(());
        }
        let most = (self.limit + 1 - self.taken_count()) as usize;
        let room = self.piece.len().min(most);
        let Ok(count) = read_some(source, &mut self.piece, room) else {
            self.state = SourceState::Failed;
            return Ok(());
        };
        if count == 0 {
            self.state = SourceState::AtEnd;
            return Ok(());
        }
        self.bytes.extend_from_slice(&self.piece[..count])?;
        Ok(())
    }

    /// Gives up the bytes before a place of the input. What is kept is moved only where more was given up
    /// since it was last moved, so each byte costs a constant time.
    pub fn drop_to(&mut self, place: u64)
        requires from { self.old.place ≤ place }
        requires to { place ≤ taken_count self.old }
        ensures { self.new ≡ record self.old {
          bytes = drop (place - self.old.place) self.old.bytes;
          place = place;
        } }
    {
        self.start += (place - self.place) as usize;
        self.place = place;
        if self.start > self.bytes.len() / 2 {
            drop_front(&mut self.bytes, self.start);
            self.start = 0;
        }
    }
}
