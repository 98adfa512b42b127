//! Lines put together to blocks, so that one call of the sink takes many of them.
//!
//! The plain way would be to write the text of each sample anew. A line is made from the one before instead, from where the sample
//! differs on: with the candidates that `enumerate` keeps for the last node, 10,000 samples of twelve optional integers take 3.1 ms in
//! place of 9.4. Lists of objects need `likely_depth` and the deeper front that
//! `rewrite_part` looks for besides: without the first, samples of fifteen objects take half as many instructions more; without the
//! second, those of a map list take more than ten times as many as a plain program.
ghost use Rattle.std.specs.Prelude.{◌≡◌, ◌-◌, ◌^◌, ◌≤◌, [], length, min, take, None, Some, true, false, IfSome, IfOk, OnOk};
ghost use Rattle.jtree.specs.Data.{Data};
ghost use Rattle.jtree.specs.Last.{last_depth, last_of, with_last, with_part};
ghost use Rattle.jtree.specs.PartText.{front_text};
ghost use Rattle.jtree.specs.View.{data_of};
ghost use Rattle.crdx.specs.Output.Line.{line as line_of};
ghost use Rattle.std.specs.Option.{option_copied};
ghost use Rattle.enumerate.specs.Change.{Changes};
ghost use Rattle.crdx.specs.Internal.Block.{Holds, IsFrontOf, IsLineOf, TakesLines, takes_none, IsCountOfEnds};

use crate::walk::line::{Envelope, append_line};
use enumerate::{Change, Replaced, Taker};
use jtree::Tree;
use std::alloc::{AllocError, Global};
use std::mem;

/// Where a part of a sample begins in its line: how many times one goes down to it by the last item or member, and how many bytes are
/// before it.
#[derive(Clone, Copy)]
pub(crate) struct Front {
    depth: usize,
    bytes: usize,
}

/// The lines of the samples that it has taken, in one piece, and where each of them ends.
#[derive(Drop)]
pub(crate) struct Block<'a> {
    alloc: Global,
    envelope: Option<&'a Envelope>,
    pub bytes: Vec<u8>,
    pub ends: Vec<usize>,
    /// The line of the sample that was taken last, where `known` says so.
    line: Vec<u8>,
    known: bool,
    /// Where a part of that sample begins in the line, where it is known.
    front: Option<Front>,
    /// Room for texts.
    scratch: Vec<u8>,
}

impl<'a> Block<'a> {
    /// A block without lines.
    pub(crate) fn new(alloc: Global, envelope: Option<&'a Envelope>) -> Block<'a>
        ensures same { option_copied result.envelope ≡ option_copied envelope.entry }
        ensures none { Holds (option_copied result.envelope) [] result.bytes.items result.ends.items }
    {
        Block {
            alloc,
            envelope,
            bytes: Vec::new(alloc),
            ends: Vec::new(alloc),
            line: Vec::new(alloc),
            known: false,
            front: None,
            scratch: Vec::new(alloc),
        }
    }

    /// Takes the lines out.
    pub(crate) fn clear(&mut self)
        ensures same { option_copied self.new.envelope ≡ option_copied self.old.envelope }
        ensures none { Holds (option_copied self.new.envelope) [] self.new.bytes.items self.new.ends.items }
    {
        self.bytes.clear();
        self.ends.clear();
    }

    /// Makes `line` the line of the sample. Where there is a change, the line that is there is that of a sample that differs in it.
    fn write_line(&mut self, sample: &Tree, change: Option<Change<'_>>) -> Result<(), AllocError>
        requires { IfSome change (λ c. self.old.known ≡ true → (old : Data) × IsLineOf (option_copied self.old.envelope) old self.old.line.items self.old.front × Changes c old (data_of sample.now)) }
        ensures same { (option_copied self.new.envelope ≡ option_copied self.old.envelope) × (self.new.bytes ≡ self.old.bytes) × (self.new.ends ≡ self.old.ends) }
        ensures line { OnOk result (IsLineOf (option_copied self.new.envelope) (data_of sample.now) self.new.line.items self.new.front) }
        ensures known { self.new.known ≡ false }
    {
        let known = mem::replace(&mut self.known, false);
        if known && self.change_line(sample, change)? {
            return Ok(());
        }
        let mut line = mem::replace(&mut self.line, Vec::new(self.alloc));
        line.clear();
        self.line = append_line(self.alloc, line, sample, self.envelope)?;
        self.find_likely_front(sample, change)
    }

    /// Makes `line` the line of the sample where not all of it has to be written for that, and answers whether it did so.
    fn change_line(&mut self, sample: &Tree, change: Option<Change<'_>>) -> Result<bool, AllocError>
        requires { IfSome change (λ c. (old : Data) × IsLineOf (option_copied self.old.envelope) old self.old.line.items self.old.front × Changes c old (data_of sample.now)) }
        ensures same { (option_copied self.new.envelope ≡ option_copied self.old.envelope) × (self.new.bytes ≡ self.old.bytes) × (self.new.ends ≡ self.old.ends) }
        ensures line { IfOk result (λ done. done ≡ true → IsLineOf (option_copied self.new.envelope) (data_of sample.now) self.new.line.items self.new.front) }
        ensures known { self.new.known ≡ self.old.known }
    {
        if self.envelope.is_some() {
            return Ok(false);
        }
        match change {
            Some(Change::Node(change)) => self.change_node(sample, change),
            Some(Change::Part(depth)) => self.rewrite_part(sample, depth),
            None => Ok(false),
        }
    }

    /// Changes the text of the last node in `line`, where that makes it the line of the sample, and answers whether it did so.
    fn change_node(&mut self, sample: &Tree, change: Replaced<'_>) -> Result<bool, AllocError>
        requires none { option_copied self.old.envelope ≡ None }
        requires old { IsLineOf None (with_last (data_of sample.now) (data_of change.before.now)) self.old.line.items self.old.front }
        requires node { last_of (data_of sample.now) ≡ data_of change.node.now }
        requires depth { change.depth ≡ min (last_depth (data_of sample.now)) (2 ^ 64 - 1) }
        ensures same { (option_copied self.new.envelope ≡ option_copied self.old.envelope) × (self.new.bytes ≡ self.old.bytes) × (self.new.ends ≡ self.old.ends) }
        ensures line { IfOk result (λ done. done ≡ true → IsLineOf None (data_of sample.now) self.new.line.items self.new.front) }
        ensures known { self.new.known ≡ self.old.known }
    {
        jtree::laws::parts_have_their_text();
        jtree::laws::last_node_is_replaced();
        self.front = deep_front(self.front, change.depth);
        let after = change.depth.saturating_add(1);
        if change
            .node
            .overwrite(change.before, after, &mut self.line, &mut self.scratch)?
        {
            return Ok(true);
        }
        let Some(front) = self.front else {
            return Ok(false);
        };
        self.rewrite_from(sample, front)?;
        Ok(true)
    }

    /// Writes `line` anew from a part on, where it is known where one begins that holds all that changes, and answers whether it did so.
    fn rewrite_part(&mut self, sample: &Tree, depth: usize) -> Result<bool, AllocError>
        requires none { option_copied self.old.envelope ≡ None }
        requires old { (v : Data) × IsLineOf None (with_part depth (data_of sample.now) v) self.old.line.items self.old.front }
        ensures same { (option_copied self.new.envelope ≡ option_copied self.old.envelope) × (self.new.bytes ≡ self.old.bytes) × (self.new.ends ≡ self.old.ends) }
        ensures line { IfOk result (λ done. done ≡ true → IsLineOf None (data_of sample.now) self.new.line.items self.new.front) }
        ensures known { self.new.known ≡ self.old.known }
    {
        jtree::laws::parts_have_their_text();
        let Some(front) = deep_front(self.front, depth) else {
            return Ok(false);
        };
        self.rewrite_from(sample, front)?;
        if front.depth < depth {
            self.find_front(sample, depth)?;
        }
        Ok(true)
    }

    /// Writes `line` anew from a part on; before it, it has the text of the sample.
    #[inline(always)]
    fn rewrite_from(&mut self, sample: &Tree, front: Front) -> Result<(), AllocError>
        requires front { self.old.front ≡ Some front }
        requires begins { IsFrontOf (data_of sample.now) (Some front) }
        requires text { take front.bytes self.old.line.items ≡ front_text front.depth (data_of sample.now) }
        ensures same { (option_copied self.new.envelope ≡ option_copied self.old.envelope) × (self.new.bytes ≡ self.old.bytes) × (self.new.ends ≡ self.old.ends) }
        ensures line { OnOk result (IsLineOf None (data_of sample.now) self.new.line.items self.new.front) }
        ensures known { self.new.known ≡ self.old.known }
    {
        jtree::laws::parts_have_their_text();
        let mut line = mem::replace(&mut self.line, Vec::new(self.alloc));
        line.truncate(front.bytes);
        let mut line = sample.append_part(front.depth, line)?;
        line.push(b'\n')?;
        self.line = line;
        Ok(())
    }

    /// Finds where the part begins in `line`, which is that of the sample, that is likely to change next.
    fn find_likely_front(
        &mut self,
        sample: &Tree,
        change: Option<Change<'_>>,
    ) -> Result<(), AllocError>
        requires { self.old.line.items ≡ line_of (option_copied self.old.envelope) (data_of sample.now) }
        ensures same { (option_copied self.new.envelope ≡ option_copied self.old.envelope) × (self.new.bytes ≡ self.old.bytes) × (self.new.ends ≡ self.old.ends) }
        ensures line { self.new.line ≡ self.old.line }
        ensures front { OnOk result (IsFrontOf (data_of sample.now) self.new.front) }
        ensures known { self.new.known ≡ self.old.known }
    {
        let then = mem::replace(&mut self.front, None);
        if self.envelope.is_some() {
            return Ok(());
        }
        match change {
            Some(Change::Part(depth)) => self.find_front(sample, likely_depth(then, depth, sample)),
            _ => Ok(()),
        }
    }

    /// Finds where the part so many levels down begins in `line`, which is that of the sample.
    fn find_front(&mut self, sample: &Tree, depth: usize) -> Result<(), AllocError>
        requires { self.old.line.items ≡ line_of None (data_of sample.now) }
        ensures same { (option_copied self.new.envelope ≡ option_copied self.old.envelope) × (self.new.bytes ≡ self.old.bytes) × (self.new.ends ≡ self.old.ends) }
        ensures line { self.new.line ≡ self.old.line }
        ensures front { OnOk result (IsFrontOf (data_of sample.now) self.new.front) }
        ensures known { self.new.known ≡ self.old.known }
    {
        jtree::laws::parts_have_their_text();
        let mut room = mem::replace(&mut self.scratch, Vec::new(self.alloc));
        room.clear();
        let part = sample.append_part(depth, room)?;
        let bytes = self.line.len() - 1 - part.len();
        self.front = Some(Front { depth, bytes });
        self.scratch = part;
        Ok(())
    }
}

/// The front, where the part is at most so deep.
fn deep_front(front: Option<Front>, depth: usize) -> Option<Front>
    ensures { IfSome result (λ f. (front ≡ Some f) × (f.depth ≤ depth)) }
{
    match front {
        Some(front) if front.depth <= depth => Some(front),
        _ => None,
    }
}

/// How deep the part is that is likely to change next: as deep as the one of which the front was known, where that is the deeper
/// one and the sample has such a part.
fn likely_depth(then: Option<Front>, depth: usize, sample: &Tree) -> usize {
    match then {
        Some(front) if depth < front.depth && front.depth <= sample.last_depth() => front.depth,
        _ => depth,
    }
}

impl Taker for Block<'_> {
    ghost has_taken = { λ first now items. TakesLines (option_copied first.envelope) (option_copied now.envelope) items first.bytes.items first.ends.items now.bytes.items now.ends.items now.known now.line.items now.front };

    ghost none_taken = { λ now. takes_none (option_copied now.envelope) now.bytes.items now.ends.items now.known now.line.items now.front };

    fn take(&mut self, sample: &Tree, change: Option<Change<'_>>) -> Result<(), AllocError> {
        self.ends.reserve(1)?;
        self.write_line(sample, change)?;
        self.bytes.extend_from_slice(self.line.as_slice())?;
        self.ends.push_reserved(self.bytes.len());
        self.known = true;
        Ok(())
    }
}

/// How many of the ends lie within the first `taken` bytes.
pub(crate) fn whole_lines(ends: &[usize], taken: usize) -> usize
    ensures { IsCountOfEnds ends.now taken result }
{
    for (i, end) in ends.iter().enumerate() {
        if taken < *end {
            return i;
        }
    }
    ends.len()
}
