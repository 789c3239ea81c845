//! A scan of a text, piece by piece.

ghost use Rattle.std.specs.Prelude.{◌≡◌, ◌≤◌, ◌<◌, ◌+◌, ◌^◌, [], length, OnOk, IfOk};
ghost use Rattle.port_io.specs.Limits.{most_bytes};
ghost use Rattle.py_syntax.specs.Places.{context_of};
ghost use Rattle.py_syntax.specs.Places;
ghost use Rattle.py_lex.specs.Scan;

use crate::front::piece_at;
use crate::gather::Gather;
use crate::place::Position;
use crate::rules::{earlier, first_dedent};
use port_io::NoMemory;
use py_syntax::{Broken, Context, Lines, LogicalLine, Piece};
use std::alloc::Global;
use std::marker::Model;
use std::mem;

/// A scan: where it stands, the line that it is in, the lines before, and the first rule that is broken so far.
#[derive(Drop)]
pub struct Scanner {
    position: Position,
    gather: Gather,
    lines: Vec<LogicalLine>,
    broken: Option<Broken>,
}

impl Model for Scanner {
    ghost use Rattle.py_lex.specs.Scan.{State};

    ghost Value = { State };

    ghost view = { λ a. record { place = a.position; gathered = a.gather; lines = a.lines.items; broken = a.broken } };
}

impl Scanner {
    pub fn new(alloc: Global) -> Self
        ensures { result ≡ Scan.first_state }
    {
        Scanner {
            position: Position::new(alloc),
            gather: Gather::new(alloc),
            lines: Vec::new(alloc),
            broken: None,
        }
    }

    pub fn context(&self) -> Context
        ensures { result ≡ context_of self.now.place }
    {
        self.position.context()
    }

    /// Takes the next piece.
    #[tactic(auto, unfolding(crate::specs::Scan::step))]
    pub fn take(&mut self, alloc: Global, piece: Piece) -> Result<(), NoMemory>
        requires spaces { self.old.place.spaces + 1 < 2 ^ 32 }
        requires lines { self.old.place.line + Places.line_ends piece < 2 ^ 32 }
        ensures { OnOk result (self.new ≡ Scan.step self.old piece) }
    {
        let spaces = self.position.spaces();
        let line = self.position.line();
        let ends = self.position.is_logical_end(&piece);
        self.broken = earlier(self.broken, self.position.broken_by(&piece));
        self.position.pass(&piece)?;
        self.gather.add(spaces, line, piece)?;
        if ends {
            let gathered = mem::replace(&mut self.gather, Gather::new(alloc));
            if let Some(line) = gathered.into_line() {
                self.lines.push(line)?;
            }
        }
        Ok(())
    }

    /// The lines, and the first broken rule.
    #[tactic(auto, unfolding(crate::specs::Scan::broken_in))]
    pub fn finish(self, alloc: Global) -> Result<(Lines, Option<Broken>), NoMemory>
        ensures lines { IfOk result (λ x. x.0 ≡ Scan.lines_in self) }
        ensures broken { IfOk result (λ x. x.1 ≡ Scan.broken_in self) }
    {
        let Scanner {
            position,
            gather,
            mut lines,
            broken,
        } = self;
        if let Some(line) = gather.into_line() {
            lines.push(line)?;
        }
        let broken = earlier(broken, position.open_format());
        let broken = earlier(broken, position.open_bracket());
        let broken = earlier(broken, first_dedent(alloc, &lines)?);
        Ok((Lines::new(lines), broken))
    }
}

/// Scans a whole text.
#[tactic(auto, using(crate::proofs::Reading::read_none, crate::proofs::Reading::read_more, crate::proofs::Reading::read_all))]
pub fn scan(alloc: Global, text: &[u8]) -> Result<Scanner, NoMemory>
    requires { length text.now ≤ most_bytes }
    ensures { IfOk result (λ scanner. Scan.HasRead text.now [] scanner) }
{
    let mut scanner = Scanner::new(alloc);
    let mut rest = text;
    while !rest.is_empty() {
        let (piece, length) = piece_at(alloc, scanner.context(), rest)?;
        scanner.take(alloc, piece)?;
        let (_, after) = rest.split_at(length);
        rest = after;
    }
    Ok(scanner)
}
