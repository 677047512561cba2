// Where the text of a line goes: to the end of a vector, or into a count of its bytes.
ghost use Rattle.std.specs.Prelude.{◌≡◌, ◌++◌, ◌+◌, ◌≤◌, [], List, ℕ, length, vec_len, vec_capacity};
ghost use Rattle.report_text.specs.Sheets.{Counts, Fills, counts_nothing, counts_joined, fills_nothing, fills_joined};

use std::alloc::Global;

/// What takes a text, piece after piece.
pub trait Sheet {
    // It is the one before the text, and the other after it.
    ghost takes: { Self → List ℕ → Self → Type 0 };

    /// Takes a piece.
    fn text(&mut self, piece: &[u8])
        ensures { takes self.old piece.now self.new };

    ghost nothing: { (s : Self) → takes s [] s };

    ghost joined: { (s t u : Self) (a b : List ℕ) → takes s a t → takes t b u → takes s (a ++ b) u };
}

/// How many bytes a text has. It stands still at the greatest number.
#[derive(Drop)]
pub struct Count {
    pub bytes: usize,
}

impl Sheet for Count {
    ghost takes = { λ s piece t. Counts s.bytes piece t.bytes };

    fn text(&mut self, piece: &[u8]) {
        self.bytes = self.bytes.saturating_add(piece.len());
    }

    ghost nothing = { λ s. counts_nothing s.bytes };

    ghost joined = { λ s t u a b h k. counts_joined s.bytes t.bytes u.bytes a b h k };
}

// A vector that has room takes the text at its end, and no memory.
impl Sheet for Vec<u8> {
    ghost takes = { λ s piece t. Fills s.items (vec_len s) (vec_capacity s) piece t.items (vec_len t) (vec_capacity t) };

    fn text(&mut self, piece: &[u8]) {
        if piece.len() <= self.capacity() - self.len() {
            push_all(piece, self);
        }
    }

    ghost nothing = { λ s. fills_nothing s.items (vec_len s) (vec_capacity s) };

    ghost joined = { λ s t u a b h k.
        fills_joined s.items (vec_len s) (vec_capacity s) t.items (vec_len t) (vec_capacity t) u.items (vec_len u) (vec_capacity u) a b h k };
}

fn push_all(piece: &[u8], out: &mut Vec<u8>)
    requires { vec_len out.old + length piece.now ≤ vec_capacity out.old }
    ensures items { out.new.items ≡ out.old.items ++ piece.now }
    ensures len { vec_len out.new ≡ vec_len out.old + length piece.now }
    ensures capacity { vec_capacity out.new ≡ vec_capacity out.old }
{
    for byte in piece {
        out.push_reserved(*byte);
    }
}
