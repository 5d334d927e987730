// The pieces in which a wire in memory gives its bytes.
ghost use Rattle.std.specs.Prelude.{◌≡◌, ◌+◌, ◌<◌, ◌≤◌, ◌^◌, [], length, take, drop, map, min, IsTrue, ◌↔◌};
ghost use Rattle.std.specs.List.{concat};
ghost use Rattle.io_edges.specs.Memory.{skip_empty, next_piece, after_taking};

use std::marker::Model;

/// Pieces of bytes, which contracts see as what is left of each, in order.
#[derive(Drop)]
pub struct Pieces {
    pieces: Vec<Vec<u8>>,
    next: usize,
    at: usize,
}

impl Model for Pieces {
    ghost use Rattle.std.specs.Prelude.{ℕ, ◌≤◌, List, length, drop, map};
    ghost use Rattle.io_edges.specs.Memory.{cut_head, head_piece};

    ghost Value = { List (List ℕ) };

    ghost view = { λ s. cut_head s.at (drop s.next (map (λ p. p.items) s.pieces.items)) };

    ghost invariant = { λ s. s.at ≤ length (head_piece (drop s.next (map (λ p. p.items) s.pieces.items))) };
}

impl Pieces {
    /// These pieces, whole.
    pub fn new(pieces: Vec<Vec<u8>>) -> Pieces
        ensures { result ≡ map (λ p. p.items) pieces.items }
    {
        Pieces {
            pieces,
            next: 0,
            at: 0,
        }
    }

    /// Goes to the first piece that has bytes left.
    fn skip_empty(&mut self)
        ensures { self.new ≡ skip_empty self.old }
    {
        while self.next < self.pieces.len() {
            if self.at < self.pieces[self.next].len() {
                return;
            }
            self.next += 1;
            self.at = 0;
        }
    }

    /// Takes the next bytes of the first piece that has any into the front of `into`, and answers how many.
    pub fn take(&mut self, into: &mut [u8]) -> usize
        ensures count { result ≡ min (length into.old) (length (next_piece self.old)) }
        ensures left { self.new ≡ after_taking result self.old }
        ensures front { take result into.new ≡ take result (next_piece self.old) }
    {
        self.skip_empty();
        if self.next >= self.pieces.len() {
            return 0;
        }
        let (_, rest) = self.pieces[self.next].as_slice().split_at(self.at);
        let count = rest.len().min(into.len());
        into[..count].copy_from_slice(&rest[..count]);
        self.at += count;
        count
    }
}

/// How many bytes these pieces have together.
pub fn count_bytes(pieces: &[Vec<u8>]) -> usize
    requires { length (concat (map (λ p. p.items) pieces.now)) ≤ 2 ^ 32 }
    ensures { result ≡ length (concat (map (λ p. p.items) pieces.now)) }
{
    let mut count = 0;
    let mut rest = pieces;
    while let Some((piece, behind)) = rest.split_first() {
        count += piece.len();
        rest = behind;
    }
    count
}

/// Whether these pieces have together at most 2^32 bytes.
pub fn fit(pieces: &[Vec<u8>]) -> bool
    ensures { IsTrue result ↔ (length (concat (map (λ p. p.items) pieces.now)) ≤ 2 ^ 32) }
{
    let mut room: usize = 1 << 32;
    let mut rest = pieces;
    while let Some((piece, behind)) = rest.split_first() {
        if room < piece.len() {
            return false;
        }
        room -= piece.len();
        rest = behind;
    }
    true
}
