//! A session of the machine.
ghost use Rattle.std.specs.Prelude.{◌≡◌, ◌++◌, ◌∷◌, [], max, OnErr, OnOk, Some};
ghost use Rattle.store_machine.specs.Machine.{finished, may_go_back, new_session};
ghost use Rattle.store_machine.specs.Machine.{pinned, pinned_back};

use crate::steps::Cuts;
use base_schema::TableName;
use base_value::Row;
use std::alloc::{AllocError, Global};
use std::marker::Model;

/// A session may go back to the version that it has seen and to those before it: to so many.
const VERSIONS_BACK: u64 = 64;

/// A piece that a session scanned.
#[derive(Drop)]
pub(crate) struct Piece {
    pub(crate) table: TableName,
    pub(crate) number: usize,
    pub(crate) rows: Vec<Row>,
}

impl Model for Piece {
    ghost use Rattle.store_machine.specs.Machine.{ScannedPiece};

    ghost Value = { ScannedPiece };

    ghost view = { λ p. record { table = p.table; number = p.number; rows = p.rows.items } };
}

/// What a session has seen, pins and scanned.
pub(crate) struct Session {
    seen: u64,
    pin: Option<u64>,
    cuts: Cuts,
    pieces: Vec<Piece>,
}

impl Drop for Session {
    #[inline]
    fn drop(self) {
        let Session {
            seen: _,
            pin: _,
            cuts,
            pieces,
        } = self;
        drop(cuts);
        drop(pieces);
    }
}

impl Model for Session {
    ghost use Rattle.store_machine.specs.Machine.{SessionState};

    ghost Value = { SessionState };

    ghost view = { λ s. record {
      seen = s.seen;
      pin = s.pin;
      cuts = s.cuts;
      pieces = s.pieces.items;
    } };
}

impl Session {
    /// Has done nothing.
    pub(crate) fn new(alloc: Global) -> Session
        ensures { result ≡ new_session }
    {
        Session {
            seen: 0,
            pin: None,
            cuts: Cuts::new(Vec::new(alloc)),
            pieces: Vec::new(alloc),
        }
    }

    /// The version that it has seen.
    pub(crate) fn seen(&self) -> u64
        ensures { result ≡ self.now.seen }
    {
        self.seen
    }

    /// The version that it pins, if it pins one.
    pub(crate) fn pin(&self) -> Option<u64>
        ensures { result ≡ self.now.pin }
    {
        self.pin
    }

    /// The lengths of the pieces of the version that it pins.
    pub(crate) fn cuts(&self) -> &Cuts
        ensures { result.now ≡ self.now.cuts }
    {
        &self.cuts
    }

    /// The pieces that it scanned.
    pub(crate) fn pieces(&self) -> &[Piece]
        ensures { result.now ≡ self.now.pieces }
    {
        self.pieces.as_slice()
    }

    /// Pins a version, which it then has seen, and forgets what it scanned.
    pub(crate) fn take(&mut self, version: u64, cuts: Cuts)
        ensures { self.new ≡ pinned version cuts }
    {
        self.seen = version;
        self.go_back(version, cuts);
    }

    /// Whether it may pin a version of this number in place of the one that it pins.
    pub(crate) fn may_go_back(&self, version: u64) -> bool
        ensures { result ≡ may_go_back self.now version }
    {
        self.pin.is_some() && version <= self.seen && self.seen - version < VERSIONS_BACK
    }

    /// Pins a version, and forgets what it scanned. What it has seen stays.
    pub(crate) fn go_back(&mut self, version: u64, cuts: Cuts)
        ensures { self.new ≡ pinned_back version cuts self.old }
    {
        self.pin = Some(version);
        self.cuts = cuts;
        self.pieces.clear();
    }

    /// Has then seen a version, if not a later one.
    pub(crate) fn learn(&mut self, note: u64)
        ensures { self.new ≡ record self.old { seen = max self.old.seen note } }
    {
        self.seen = self.seen.max(note);
    }

    /// Drops the pin.
    pub(crate) fn finish(&mut self)
        ensures { self.new ≡ finished self.old }
    {
        self.pin = None;
    }

    /// Notes a piece.
    pub(crate) fn note(&mut self, piece: Piece) -> Result<(), AllocError>
        ensures ok { OnOk result
            (self.new ≡ record self.old { pieces = self.old.pieces ++ piece ∷ [] }) }
        ensures err { OnErr result (self.new ≡ self.old) }
    {
        self.pieces.push(piece)?;
        Ok(())
    }
}
