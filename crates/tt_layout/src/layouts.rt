//! The layouts of a table as a chain: a full list at each 64th, and changes else.
ghost use Rattle.std.specs.Prelude.{◌≡◌, ℕ, ◌+◌, ◌%◌, ◌<◌, ◌≤◌, List, [], ◌∷◌, ◌++◌, length, OnOk, OnErr, IfOk, option_map};
ghost use Rattle.tt_layout.specs.Numbers.{IsAscending, HasAll, HasNone, changed, without, joined};
ghost use Rattle.tt_layout.specs.Chain.{AreLayouts, IsChain, current_of, last_begun, layout_at, with_change, without_last, pieces_of, piece_given, layouts_from, numbers_at, begun_at};

use crate::numbers::{merged, put_behind, remaining};
use crate::piece::Piece;
use std::alloc::{AllocError, Global};
use std::marker::Model;
use tt_value::Sequence;

// From one full list to the next there are so many layouts.
const STRIDE: usize = 64;

/// The numbers of a table's partitions, from each moment at which they changed, in milliseconds since 1970.
/// Contracts see the list of the layouts in order, each with the moment at which it begins and its numbers, which ascend.
#[derive(Clone, Drop)]
pub struct Layouts {
    pieces: Vec<(u64, Piece)>,
}

impl Model for Layouts {
    ghost use Rattle.std.specs.Prelude.{ℕ, List, []};
    ghost use Rattle.tt_layout.specs.Chain.{IsChain, layouts_from};

    ghost Value = { List (ℕ × List ℕ) };

    ghost view = { λ l. layouts_from [] l.pieces.items };

    ghost invariant = { λ l. IsChain l.pieces.items };
}

impl Layouts {
    /// One layout, from a moment on. Without memory the numbers are dropped.
    pub fn new(alloc: Global, begun: u64, parts: Vec<u64>) -> Result<Layouts, AllocError>
        requires { IsAscending parts.items }
        ensures { IfOk result (λ layouts. layouts ≡ (begun, parts.items) ∷ []) }
    {
        let mut pieces = Vec::new(alloc);
        pieces.push((begun, Piece::Full(Sequence::from_vec(parts))))?;
        Ok(Layouts { pieces })
    }

    /// One more layout: the current one without what is gone and with what was added. Without memory nothing changes.
    pub fn push(&mut self, begun: u64, gone: &[u64], added: &[u64]) -> Result<(), AllocError>
        requires later { last_begun self.old ≤ begun }
        requires gone_ascends { IsAscending gone.now }
        requires added_ascends { IsAscending added.now }
        requires gone { HasAll (current_of self.old) gone.now }
        requires added { HasNone (current_of self.old) added.now }
        ensures ok { OnOk result (self.new ≡ with_change self.old begun gone.now added.now) }
        ensures piece { OnOk result (pieces_of self.new ≡ pieces_of self.old
            ++ (begun, piece_given (length self.old) (current_of self.old) gone.now added.now) ∷ []) }
        ensures err { OnErr result (self.new ≡ self.old) }
    {
        let piece = self.next_piece(gone, added)?;
        self.pieces.push((begun, piece))?;
        Ok(())
    }

    /// Takes back the last `push`. Takes no memory.
    pub fn pop(&mut self)
        requires { 1 < length self.old }
        ensures { self.new ≡ without_last self.old }
    {
        let Some(_last) = self.pieces.pop() else {
            unreachable!()
        };
    }

    /// The numbers of the last layout.
    pub fn current(&self) -> Result<Vec<u64>, AllocError>
        ensures { IfOk result (λ numbers. numbers.items ≡ current_of self.now) }
    {
        let alloc = *self.pieces.allocator();
        numbers_of_place(alloc, &self.pieces, self.pieces.len() - 1)
    }

    /// The numbers of the last layout that began by a moment; none before the first.
    pub fn at(&self, moment: u64) -> Result<Option<Vec<u64>>, AllocError>
        ensures { IfOk result (λ found. option_map (λ numbers. numbers.items) found ≡ layout_at self.now moment) }
    {
        let alloc = *self.pieces.allocator();
        let begun = begun_by(&self.pieces, moment);
        if begun == 0 {
            return Ok(None);
        }
        let numbers = numbers_of_place(alloc, &self.pieces, begun - 1)?;
        Ok(Some(numbers))
    }

    /// The pieces of the chain, one for each layout, with the moment at which it begins. Takes no memory.
    pub fn pieces(&self) -> &[(u64, Piece)]
        ensures pieces { result.now ≡ pieces_of self.now }
        ensures in_order { AreLayouts self.now }
    {
        self.pieces.as_slice()
    }

    // The piece of one more layout.
    fn next_piece(&self, gone: &[u64], added: &[u64]) -> Result<Piece, AllocError>
        requires gone_ascends { IsAscending gone.now }
        requires added_ascends { IsAscending added.now }
        ensures { IfOk result (λ piece. piece ≡ piece_given (length self.now) (current_of self.now) gone.now added.now) }
    {
        let alloc = *self.pieces.allocator();
        if self.pieces().len() % STRIDE == 0 {
            let numbers = self.next_numbers(gone, added)?;
            Ok(Piece::Full(Sequence::from_vec(numbers)))
        } else {
            change_piece(alloc, gone, added)
        }
    }

    // The numbers of one more layout. The current ones are not made in between.
    fn next_numbers(&self, gone: &[u64], added: &[u64]) -> Result<Vec<u64>, AllocError>
        requires gone_ascends { IsAscending gone.now }
        requires added_ascends { IsAscending added.now }
        ensures { IfOk result (λ numbers. numbers.items ≡ changed (current_of self.now) gone.now added.now) }
    {
        let alloc = *self.pieces.allocator();
        numbers_behind(alloc, &self.pieces, self.pieces.len() - 1, gone, added)
    }
}

fn change_piece(alloc: Global, gone: &[u64], added: &[u64]) -> Result<Piece, AllocError>
    ensures { IfOk result (λ piece. piece ≡ Piece.Change gone.now added.now) }
{
    let gone = copy_of(alloc, gone)?;
    let added = copy_of(alloc, added)?;
    Ok(Piece::Change { gone, added })
}

fn copy_of(alloc: Global, numbers: &[u64]) -> Result<Sequence<u64>, AllocError>
    ensures { IfOk result (λ copy. copy ≡ numbers.now) }
{
    let mut copy = Vec::with_capacity(alloc, numbers.len())?;
    copy.extend_from_slice(numbers)?;
    Ok(Sequence::from_vec(copy))
}

// The numbers without what is gone and with what was added.
fn after_change(
    alloc: Global,
    numbers: &[u64],
    gone: &[u64],
    added: &[u64],
) -> Result<Vec<u64>, AllocError>
    requires numbers { IsAscending numbers.now }
    requires gone { IsAscending gone.now }
    requires added { IsAscending added.now }
    ensures { IfOk result (λ changed_. changed_.items ≡ changed numbers.now gone.now added.now) }
{
    if gone.is_empty() {
        return merged(alloc, numbers, added);
    }
    let kept = remaining(alloc, numbers, gone)?;
    put_behind(alloc, kept, added)
}

// What is gone and what was added over some changes.
#[derive(Drop)]
struct Net {
    gone: Vec<u64>,
    added: Vec<u64>,
}

// The numbers of the layout at a place: the last full list before it, and at most 63 changes put together.
fn numbers_of_place(
    alloc: Global,
    pieces: &[(u64, Piece)],
    place: usize,
) -> Result<Vec<u64>, AllocError>
    requires chain { IsChain pieces.now }
    requires place { place < length pieces.now }
    ensures { IfOk result (λ numbers. numbers.items ≡ numbers_at (layouts_from [] pieces.now) place) }
{
    let first = place - place % STRIDE;
    let (_, full) = &pieces[first];
    let net = net_change(alloc, pieces, first, place)?;
    after_change(alloc, full.full_list(), &net.gone, &net.added)
}

// The numbers of the layout at a place, changed once more.
fn numbers_behind(
    alloc: Global,
    pieces: &[(u64, Piece)],
    place: usize,
    gone: &[u64],
    added: &[u64],
) -> Result<Vec<u64>, AllocError>
    requires chain { IsChain pieces.now }
    requires place { place < length pieces.now }
    requires gone { IsAscending gone.now }
    requires added { IsAscending added.now }
    ensures { IfOk result (λ numbers. numbers.items
        ≡ changed (numbers_at (layouts_from [] pieces.now) place) gone.now added.now) }
{
    let first = place - place % STRIDE;
    let (_, full) = &pieces[first];
    let net = net_change(alloc, pieces, first, place)?;
    let net = with_change(alloc, net, gone, added)?;
    after_change(alloc, full.full_list(), &net.gone, &net.added)
}

fn net_change(
    alloc: Global,
    pieces: &[(u64, Piece)],
    first: usize,
    place: usize,
) -> Result<Net, AllocError>
    requires chain { IsChain pieces.now }
    requires place { place < length pieces.now }
    requires first { first ≤ place }
    requires full { first % 64 ≡ 0 }
    requires near { place < first + 64 }
    ensures change { IfOk result (λ net. changed (numbers_at (layouts_from [] pieces.now) first) net.gone.items net.added.items
        ≡ numbers_at (layouts_from [] pieces.now) place) }
    ensures gone { IfOk result (λ net. IsAscending net.gone.items) }
    ensures added { IfOk result (λ net. IsAscending net.added.items) }
{
    let mut net = Net {
        gone: Vec::new(alloc),
        added: Vec::new(alloc),
    };
    for at in first..place {
        let (_, change) = &pieces[at + 1];
        let (gone, added) = change.change_lists();
        net = with_change(alloc, net, gone, added)?;
    }
    Ok(net)
}

// Two changes in a row as one.
fn with_change(alloc: Global, net: Net, gone: &[u64], added: &[u64]) -> Result<Net, AllocError>
    requires net_gone { IsAscending net.gone.items }
    requires net_added { IsAscending net.added.items }
    requires gone { IsAscending gone.now }
    requires added { IsAscending added.now }
    ensures gone { IfOk result (λ after. after.gone.items ≡ joined net.gone.items gone.now) }
    ensures added { IfOk result (λ after. after.added.items ≡ joined (without gone.now net.added.items) added.now) }
{
    let added = after_change(alloc, &net.added, gone, added)?;
    let gone = merged(alloc, &net.gone, gone)?;
    Ok(Net { gone, added })
}

// How many of the layouts began by a moment.
fn begun_by(pieces: &[(u64, Piece)], moment: u64) -> usize
    requires { IsChain pieces.now }
    ensures bound { result ≤ length pieces.now }
    ensures begun { (k : ℕ) → k < result → begun_at (layouts_from [] pieces.now) k ≤ moment }
    ensures to_come { (k : ℕ) → result ≤ k → k < length pieces.now → moment < begun_at (layouts_from [] pieces.now) k }
{
    pieces.partition_point(|piece| piece.0 <= moment)
}
