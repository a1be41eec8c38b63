//! A buffer between a source and the lines that are read from it.
ghost use Rattle.std.specs.Prelude.{◌≡◌, ◌==◌, ◌≤◌, ◌<◌, ◌++◌, List, ℕ, [], length, take, drop, slice_range};
ghost use Rattle.std.specs.Prelude.{MatchResult, IfOk, OnOk, OnErr};
ghost use Rattle.std.specs.List.{position};
ghost use Rattle.dz_io.specs.Device.{Gives, IsAtEnd, HasCause};
ghost use Rattle.dz_script.specs.Lines.{ahead};
ghost use Rattle.dz_script.specs.inner.Window.{IsPiece};

use dz_io::{Failed, Source};
use std::alloc::AllocError;
use std::marker::Model;

/// Octets that were read from a source and not yet taken. Contracts see their list.
#[derive(Drop)]
pub struct Window {
    octets: [u8; 4096],
    at: usize,
    end: usize,
}

impl Model for Window {
    ghost Value = { List ℕ };

    ghost view = { λ w. slice_range w.octets w.at w.end };

    ghost invariant = { λ w. (w.at ≤ w.end) × (w.end ≤ 4096) };
}

/// What the front of a window is to the line that is being read.
#[derive(Clone, Copy)]
pub(crate) enum Piece {
    /// It ends with the line's newline.
    Closed,
    /// It is all of the window, and the line goes on.
    Open,
    /// It is all that there is room for, and the line goes on.
    Full,
}

impl Window {
    /// A window that holds nothing.
    pub fn new() -> Self
        ensures { result ≡ [] }
    {
        Window {
            octets: [0; 4096],
            at: 0,
            end: 0,
        }
    }

    /// The octets that it holds.
    pub(crate) fn octets(&self) -> &[u8]
        ensures { result.now ≡ self.now }
    {
        &self.octets[self.at..self.end]
    }

    /// Fills the window where it is empty. It stays empty at the source's end and where the read fails.
    pub(crate) fn refill<S: Source>(&mut self, source: &mut S) -> Result<(), Failed>
        ensures ahead { ahead self.new (S.left source.new) ≡ ahead self.old (S.left source.old) }
        ensures end { OnOk result (self.new ≡ [] → IsAtEnd (S.left source.new)) }
        ensures err { OnErr result (self.new ≡ []) }
        ensures cause { HasCause (S.faults source.old) (S.faults source.new) result }
    {
        if self.octets().is_empty() {
            self.fill(source)
        } else {
            Ok(())
        }
    }

    /// Fills an empty window.
    fn fill<S: Source>(&mut self, source: &mut S) -> Result<(), Failed>
        requires { self.old ≡ [] }
        ensures ahead { ahead self.new (S.left source.new) ≡ S.left source.old }
        ensures end { OnOk result (self.new ≡ [] → IsAtEnd (S.left source.new)) }
        ensures err { OnErr result (self.new ≡ []) }
        ensures cause { HasCause (S.faults source.old) (S.faults source.new) result }
    {
        self.at = 0;
        self.end = 0;
        self.end = source.read(&mut self.octets)?;
        Ok(())
    }

    /// Moves the front of the window to the line's end: up to a newline, or as much as there is or has room.
    pub(crate) fn move_piece(&mut self, line: &mut Vec<u8>, room: u64) -> Result<Piece, AllocError>
        ensures ok { IfOk result (λ kind. (piece : List ℕ)
            × (line.new.items ≡ line.old.items ++ piece)
            × (self.old ≡ piece ++ self.new)
            × (length piece ≤ room)
            × IsPiece kind room self.old piece) }
        ensures err_line { OnErr result (line.new.items ≡ line.old.items) }
        ensures err_window { OnErr result (self.new ≡ self.old) }
    {
        let (kind, count) = first_piece(self.octets(), room);
        line.extend_from_slice(&self.octets()[..count])?;
        self.at += count;
        Ok(kind)
    }
}

/// Where the first newline is.
fn newline_in(octets: &[u8]) -> Option<usize>
    ensures { result ≡ position (λ octet. octet == 10) octets.now }
{
    octets.iter().position(|octet| *octet == b'\n')
}

/// The kind and the length of the piece at the front of these octets.
fn first_piece(octets: &[u8], room: u64) -> (Piece, usize)
    ensures within { result.1 ≤ length octets.now }
    ensures room { result.1 ≤ room }
    ensures kind { IsPiece result.0 room octets.now (take result.1 octets.now) }
{
    let count = room.min(octets.len() as u64) as usize;
    match newline_in(&octets[..count]) {
        Some(at) => (Piece::Closed, at + 1),
        None if count < octets.len() => (Piece::Full, count),
        None => (Piece::Open, count),
    }
}
