//! What a new connection begins with.

use std::marker::Model;

/// The bytes that a new connection kept, and the place of the first of them in its stream.
#[derive(Drop)]
pub struct Beginning {
    pub(crate) kept: Vec<u8>,
    pub(crate) place: u64,
}

impl Model for Beginning {
    ghost use Rattle.std.specs.Prelude.{◌+◌, ◌≤◌, vec_len, ℕ, List};
    ghost use Rattle.kp_model.specs.Limits.{last_number};
    ghost use Rattle.kp_conn.specs.Codes.{beginning_code};

    ghost Value = { List ℕ × ℕ };

    ghost coded = { beginning_code };

    ghost view = { λ b. (b.kept.items, b.place) };

    ghost invariant = { λ b. b.place + vec_len b.kept ≤ last_number };
}
